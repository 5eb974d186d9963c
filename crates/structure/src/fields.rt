// Rule 1: "Counts are within limits, words within their fields. Slot 0 is the only live Root: generation 0, no parent."
ghost use Rattle.std.specs.Prelude.{◌≡◌, true, ◌&&◌, length};
ghost use Rattle.slots.specs.WordsRule.{words_rule};
ghost use Rattle.model.specs.Kinds.{is_root};
ghost use Rattle.model.specs.Doc.{live_slot, kind_in, parent_in, is_none};
ghost use Rattle.layout.specs.Layout.{limits_of, which_of};
ghost use Rattle.memory.specs.Decode.{counts_within, slots_part, slots_made};
ghost use Rattle.entries.specs.View.{decoded_nodes};
ghost use Rattle.structure.specs.Tests.{capacities_fit, arenas_fit, root_stands, fields_fit};

use entries::nodes::{Nodes, kind_of};
use layout::{Arena, Counts, Limits, arena_at, arena_limit};
use memory::read::{arena_used, made};
use memory::view::View;
use records::kind::ROOT;
use words::NodeSlot;

// `&` in place of `&&`, here and below: no branch stands between the tests.
fn counts_within(l: Limits, c: Counts) -> bool
    ensures { result ≡ counts_within (limits_of l) c }
{
    (c.slots <= l.nodes)
        & (c.free <= l.nodes)
        & (c.children <= l.children)
        & (c.attributes <= l.attributes)
        & (c.namespaces <= l.namespaces)
        & (c.texts <= l.texts)
        & (c.freetexts <= l.texts)
        & (c.textbytes <= l.textbytes)
        & (c.names <= l.names)
        & (c.namebytes <= l.namebytes)
}

// Whether the words of the slots made are within their fields.
fn slots_fit(view: &View<'_>) -> bool
    ensures { result ≡ words_rule view.now.document.limits.nodes (slots_part view.now.document view.now.words.now) (slots_made view.now.document) }
{
    view.slots().check_words(made(view.document))
}

// Whether the capacities of an arena's entries in use are within their fields: their upper halves add up to 0, so that no branch stands between the entries.
#[tactic(auto, using(layout::proofs::Sizes::limits_within))]
fn capacities_fit(view: &View<'_>, arena: Arena) -> bool
    ensures { result ≡ capacities_fit (decoded_nodes view.now) (which_of arena) }
{
    let d = view.document;
    let start = arena_at(d.limits, arena) + arena_limit(d.limits, arena);
    let end = start + arena_used(d, arena);
    let mut upper = 0;
    for &capacity in &view.words[start..end] {
        upper += capacity / 4294967296;
    }
    upper == 0
}

fn arenas_fit(view: &View<'_>) -> bool
    ensures { result ≡ arenas_fit (decoded_nodes view.now) }
{
    capacities_fit(view, Arena::Children)
        & capacities_fit(view, Arena::Attributes)
        & capacities_fit(view, Arena::Namespaces)
}

// Whether slot 0, which is live, is a Root without a parent.
fn is_top(view: &View<'_>) -> bool
    requires { live_slot (decoded_nodes view.now) 0 ≡ true }
    ensures { result ≡ (is_root (kind_in (decoded_nodes view.now) 0) && is_none (parent_in (decoded_nodes view.now) 0)) }
{
    kind_of(view, 0) == ROOT && view.has_no_parent(NodeSlot(0))
}

// Whether slot 0 is a live Root of generation 0 without a parent.
fn root_stands(nodes: &Nodes<'_>) -> bool
    ensures { result ≡ root_stands (decoded_nodes nodes.now.view) }
{
    let view = &nodes.view;
    if made(view.document) == 0 {
        return false;
    }
    view.generation(NodeSlot(0)) == 0 && is_top(view)
}

// Whether rule 1 holds, but for the numbers of texts and names, and for other Roots: the pass over the slots tests those.
pub fn check_fields(view: &View<'_>) -> bool
    ensures { result ≡ fields_fit view.now.document view.now.words.now }
{
    (counts_within(view.document.limits, view.document.counts) & slots_fit(view))
        && (arenas_fit(view) & root_stands(&Nodes { view: *view }))
}
