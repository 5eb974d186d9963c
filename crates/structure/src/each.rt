// The pass over the slots: each is read once, and tested for all that a slot's own words decide. That is rule 1's "the only live Root", rule 3, the claims
// of rule 5, and the fields of rule 8.
ghost use Rattle.std.specs.Prelude.{◌≡◌, true, ◌<◌, ◌≤◌, length};
ghost use Rattle.model.specs.Doc.{limits_ok, live_slot};
ghost use Rattle.layout.specs.Layout.{limits_of, scratch_words};
ghost use Rattle.memory.specs.Decode.{slots_made};
ghost use Rattle.entries.specs.View.{decoded_nodes};
ghost use Rattle.structure.specs.Tests.{root_test};
ghost use Rattle.structure.specs.Turns.{owner_holds, Cleared, Claims, Turn, Each};

use crate::arenas::{claim, clear_arena};
use crate::parents::parent_fits;
use crate::pool::{clear_texts, count_fields};
use entries::nodes::{Nodes, kind_of};
use layout::{Arena, Document};
use memory::read::made;
use memory::view::View;
use records::kind::ROOT;

// A live Root stands in slot 0.
fn is_only_root(view: &View<'_>, s: usize) -> bool
    requires { live_slot (decoded_nodes view.now) s ≡ true }
    ensures { result ≡ root_test (decoded_nodes view.now) s }
{
    s == 0 || kind_of(view, s) != ROOT
}

fn owner_holds(nodes: &Nodes<'_>, s: usize) -> bool
    requires { live_slot (decoded_nodes nodes.now.view) s ≡ true }
    ensures { result ≡ owner_holds (decoded_nodes nodes.now.view) s }
{
    is_only_root(&nodes.view, s) && parent_fits(nodes, s)
}

// The claims of a live slot, in each arena. The arenas are named where they are used, so that nothing is looked up by a name.
fn claim_lists(view: &View<'_>, s: usize, scratch: &mut [u64]) -> bool
    requires { (scratch_words (limits_of view.now.document.limits) ≤ length scratch.old) × (live_slot (decoded_nodes view.now) s ≡ true) }
    ensures { Claims view.now.document view.now.words.now s scratch.old scratch.new result }
{
    if !claim(view, Arena::Children, s, scratch) {
        return false;
    }
    claim(view, Arena::Attributes, s, scratch) && claim(view, Arena::Namespaces, s, scratch)
}

// Makes the marks that the pass uses 0: as many as there are entries in use and text slots made.
#[tactic(auto, unfolding(crate::specs::Scratch::marks_at, crate::specs::Scratch::text_marks_at, layout::specs::Layout::scratch_words))]
fn clear_marks(d: Document, scratch: &mut [u64])
    requires { (limits_ok (limits_of d.limits) ≡ true) × (scratch_words (limits_of d.limits) ≤ length scratch.old) × (d.counts.texts ≤ d.limits.texts) }
    ensures { Cleared d scratch.new }
{
    clear_texts(d, scratch);
    clear_arena(d, Arena::Children, scratch);
    clear_arena(d, Arena::Attributes, scratch);
    clear_arena(d, Arena::Namespaces, scratch);
}

// Nodes of a document whose text slots made are within their limit, so that scratch has a mark for each.
#[derive(Clone, Copy)]
pub struct Bounded<'a> {
    pub nodes: Nodes<'a>,
    pub ghost texts: { nodes.view.document.counts.texts ≤ nodes.view.document.limits.texts },
}

impl Bounded<'_> {
    fn pass_live(&self, s: usize, scratch: &mut [u64]) -> bool
        requires { (scratch_words (limits_of self.now.nodes.view.document.limits) ≤ length scratch.old) × (live_slot (decoded_nodes self.now.nodes.view) s ≡ true) }
        ensures { Turn self.now.nodes.view.document self.now.nodes.view.words.now s scratch.old scratch.new result }
    {
        if !owner_holds(&self.nodes, s) {
            return false;
        }
        count_fields(&self.nodes.view, s, scratch) && claim_lists(&self.nodes.view, s, scratch)
    }

    fn pass_slot(&self, s: usize, scratch: &mut [u64]) -> bool
        requires { (scratch_words (limits_of self.now.nodes.view.document.limits) ≤ length scratch.old) × (s < slots_made self.now.nodes.view.document) }
        ensures { Turn self.now.nodes.view.document self.now.nodes.view.words.now s scratch.old scratch.new result }
    {
        if self.nodes.is_live(s) {
            self.pass_live(s, scratch)
        } else {
            true
        }
    }

    // All slots, where the marks are cleared.
    fn pass_slots(&self, scratch: &mut [u64]) -> bool
        requires { (scratch_words (limits_of self.now.nodes.view.document.limits) ≤ length scratch.old) × Cleared self.now.nodes.view.document scratch.old }
        ensures { Each self.now.nodes.view.document self.now.nodes.view.words.now scratch.new result }
    {
        for s in 0..made(self.nodes.view.document) {
            if !self.pass_slot(s, scratch) {
                return false;
            }
        }
        true
    }

    // Whether there is no second Root, rules 3 and 5 hold, and rule 8 of the fields.
    pub fn check_each(&self, scratch: &mut [u64]) -> bool
        requires { scratch_words (limits_of self.now.nodes.view.document.limits) ≤ length scratch.old }
        ensures { Each self.now.nodes.view.document self.now.nodes.view.words.now scratch.new result }
    {
        clear_marks(self.nodes.view.document, scratch);
        self.pass_slots(scratch)
    }
}
