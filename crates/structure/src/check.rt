// The rules together, each where those that it relies on hold.
ghost use Rattle.std.specs.Prelude.{◌≡◌, true, ◌&&◌, ◌≤◌, length, replicate};
ghost use Rattle.model.specs.RulesTest.{counts_and_fields_hold, free_list_holds, parents_hold, entries_hold, blocks_hold, parents_end_holds, one_root_element_holds, rules_hold};
ghost use Rattle.layout.specs.Layout.{limits_of, scratch_words};
ghost use Rattle.memory.specs.Decode.{slots_made};
ghost use Rattle.memory.specs.View.{decoded};
ghost use Rattle.entries.specs.View.{decoded_nodes};
ghost use Rattle.structure.specs.Tests.{fields_fit, each_holds};

use crate::each::Bounded;
use crate::fields::check_fields;
use crate::free::check_free_list;
use crate::pool::check_pool;
use crate::root::check_root_element;
use entries::node_lists::Lists;
use entries::node_paths::Paths;
use entries::nodes::Nodes;
use memory::read::made;
use memory::view::View;

// Rules 1 and 2, which read the slots and the free list; but for other Roots, which the pass over the slots tests.
#[tactic(auto, unfolding(layout::specs::Layout::scratch_words))]
fn check_slots(view: &View<'_>, scratch: &mut [u64]) -> bool
    requires { scratch_words (limits_of view.now.document.limits) ≤ length scratch.old }
    ensures { result ≡ (fields_fit view.now.document view.now.words.now && free_list_holds (decoded_nodes view.now)) }
{
    if !check_fields(view) {
        return false;
    }
    let count = made(view.document);
    check_free_list(view, &mut scratch[0..count])
}

// Rule 4, where rule 3 holds. Marks has a word for each slot made.
fn check_listed(lists: &Lists<'_>, marks: &mut [u64]) -> bool
    requires { (parents_hold (decoded_nodes lists.now.nodes.view) ≡ true) × (slots_made lists.now.nodes.view.document ≤ length marks.old) }
    ensures { result ≡ entries_hold (decoded_nodes lists.now.nodes.view) }
{
    marks.fill(0);
    lists.check_entries(marks)
}

// Rule 6. Marks has a word for each slot made.
fn check_ends(paths: &Paths<'_>, marks: &mut [u64]) -> bool
    requires { slots_made paths.now.nodes.view.document ≤ length marks.old }
    ensures { result ≡ parents_end_holds (decoded_nodes paths.now.nodes.view) }
{
    marks.fill(0);
    paths.check_paths(marks)
}

// Rules 4, 7 and 6, which follow the links between nodes, where rules 1, 3 and 5 hold.
#[tactic(auto, unfolding(layout::specs::Layout::scratch_words))]
fn check_links(view: &View<'_>, scratch: &mut [u64]) -> bool
    requires scratch_fits { scratch_words (limits_of view.now.document.limits) ≤ length scratch.old }
    requires rules { (parents_hold (decoded_nodes view.now) ≡ true) × (blocks_hold (decoded_nodes view.now) ≡ true) × (counts_and_fields_hold (decoded_nodes view.now) ≡ true) }
    ensures { result ≡ (entries_hold (decoded_nodes view.now) && one_root_element_holds (decoded_nodes view.now) && parents_end_holds (decoded_nodes view.now)) }
{
    let nodes = Nodes { view: *view };
    let count = made(view.document);
    if !check_listed(&Lists { nodes }, &mut scratch[0..count]) {
        return false;
    }
    if !check_root_element(view) {
        return false;
    }
    check_ends(&Paths { nodes }, &mut scratch[0..count])
}

// What is left of rule 1, and rules 3, 5 and 8.
fn check_passes(view: &View<'_>, scratch: &mut [u64]) -> bool
    requires { (scratch_words (limits_of view.now.document.limits) ≤ length scratch.old) × (fields_fit view.now.document view.now.words.now ≡ true) }
    ensures { result ≡ each_holds view.now.document view.now.words.now }
{
    let nodes = Nodes { view: *view };
    let bounded = Bounded { nodes };
    bounded.check_each(scratch) && check_pool(view, scratch)
}

// All eight rules.
fn check_rules(view: &View<'_>, scratch: &mut [u64]) -> bool
    requires { scratch_words (limits_of view.now.document.limits) ≤ length scratch.old }
    ensures { result ≡ rules_hold (decoded view.now) }
{
    if !check_slots(view, scratch) {
        return false;
    }
    check_passes(view, scratch) && check_links(view, scratch)
}

// Stays: a type for scratch would hold the limits that it is long enough for, and each function would ask that they are the document's.
// Whether the structure rules hold: Damaged is answered exactly where they do not. Scratch may hold anything, and is all zero after.
pub fn check_structure(view: &View<'_>, scratch: &mut [u64]) -> bool
    requires { scratch_words (limits_of view.now.document.limits) ≤ length scratch.old }
    ensures value { result ≡ rules_hold (decoded view.now) }
    ensures scratch_after { scratch.new ≡ replicate (length scratch.old) 0 }
{
    let holds = check_rules(view, scratch);
    scratch.fill(0);
    holds
}
