// Rule 5: "Non-empty blocks with their capacities lie inside the arena and don't overlap. An empty block's start is at most the arena's length."
ghost use Rattle.std.specs.Prelude.{◌≡◌, true, ◌+◌, ◌≤◌, length, replicate};
ghost use Rattle.words.specs.Parts.{put};
ghost use Rattle.model.specs.Doc.{limits_ok, live_slot};
ghost use Rattle.model.specs.Rules.{block_in};
ghost use Rattle.layout.specs.Layout.{limits_of, which_of, scratch_words};
ghost use Rattle.memory.specs.Decode.{arena_used, arena_in};
ghost use Rattle.entries.specs.View.{decoded_nodes};
ghost use Rattle.structure.specs.Scratch.{marks_at};
ghost use Rattle.structure.specs.Turns.{Claim};

use entries::nodes::block_of;
use layout::{Arena, Document, Limits};
use memory::read::{arena_used, block_in};
use memory::view::View;

// Where the marks of an arena lie in scratch: behind four words a node, one arena after another.
#[tactic(auto, unfolding(model::specs::Doc::limits_ok, crate::specs::Scratch::marks_at))]
fn marks_at(l: Limits, arena: Arena) -> usize
    requires { limits_ok (limits_of l) ≡ true }
    ensures { result ≡ marks_at (limits_of l) (which_of arena) }
{
    let first = 4 * l.nodes;
    match arena {
        Arena::Children => first,
        Arena::Attributes => first + l.children,
        Arena::Namespaces => first + l.children + l.attributes,
    }
}

// Makes the marks of an arena's entries in use 0.
pub fn clear_arena(d: Document, arena: Arena, scratch: &mut [u64])
    requires { (limits_ok (limits_of d.limits) ≡ true) × (marks_at (limits_of d.limits) (which_of arena) + arena_used d (which_of arena) ≤ length scratch.old) }
    ensures { scratch.new ≡ put (marks_at (limits_of d.limits) (which_of arena)) (replicate (arena_used d (which_of arena)) 0) scratch.old }
{
    let at = marks_at(d.limits, arena);
    let end = at + arena_used(d, arena);
    scratch[at..end].fill(0);
}

// The block of a live slot in an arena claims its entries with their capacity. Most blocks are empty: such a block claims nothing, so that no more is
// read of it.
#[tactic(auto, using(crate::proofs::Claimed::marks_inside, layout::proofs::Sizes::limits_within))]
pub fn claim(view: &View<'_>, arena: Arena, s: usize, scratch: &mut [u64]) -> bool
    requires { (scratch_words (limits_of view.now.document.limits) ≤ length scratch.old) × (live_slot (decoded_nodes view.now) s ≡ true) }
    ensures { Claim (arena_in view.now.document (which_of arena) view.now.words.now) (block_in (decoded_nodes view.now) (which_of arena) s) (marks_at (limits_of view.now.document.limits) (which_of arena)) scratch.old scratch.new result }
{
    let block = block_in(block_of(view, arena, s));
    let used = arena_used(view.document, arena);
    if block.len == 0 {
        return block.start <= used;
    }
    let at = marks_at(view.document.limits, arena);
    let last = at + used;
    view.arena_words(arena)
        .claim_block(&mut scratch[at..last], block)
}
