// What the calls share once test 4 has passed: the block, the parent and the element that are shown.
ghost use Rattle.std.specs.Prelude.{◌≡◌, true, cond, ◌+◌, leb};
ghost use Rattle.blocks.specs.Arena.{block};
ghost use Rattle.records.specs.Handles.{word_of};
ghost use Rattle.model.specs.Doc.{resolves, shown_block, shown_parent, shows_element};
ghost use Rattle.layout.specs.Layout.{which_of};
ghost use Rattle.memory.specs.Decode.{block_of, handle_of};
ghost use Rattle.memory.specs.View.{decoded};

use layout::Arena;
use memory::view::View;
use records::{NodeId, Range};
use words::NodeSlot;

// A block, or an empty one where it lies outside an arena of this length.
fn within(range: Range, used: usize) -> Range
    ensures { block_of result ≡ cond (leb (range.start + range.len) used) (block_of range) (block 0 0) }
{
    if range.start as usize + range.len as usize <= used {
        range
    } else {
        Range { start: 0, len: 0 }
    }
}

// The block of a node's list as it is shown, of a node that resolves: attributes and namespaces only of an element.
pub fn live_shown_block(view: &View<'_>, id: NodeId, arena: Arena) -> Range
    requires { resolves (decoded view.now) (word_of id) ≡ true }
    ensures { block_of result ≡ shown_block (decoded view.now) (which_of arena) (word_of id) }
{
    let block = view.live_block(NodeSlot(id.index), arena);
    within(block, memory::read::arena_used(view.document, arena))
}

// The same of any handle.
pub fn shown_block(view: &View<'_>, id: NodeId, arena: Arena) -> Range
    ensures { block_of result ≡ shown_block (decoded view.now) (which_of arena) (word_of id) }
{
    if view.resolves(id) {
        live_shown_block(view, id, arena)
    } else {
        Range { start: 0, len: 0 }
    }
}

// The parent as it is shown, of a node that resolves.
pub fn live_shown_parent(view: &View<'_>, id: NodeId) -> Option<NodeId>
    requires { resolves (decoded view.now) (word_of id) ≡ true }
    ensures { handle_of result ≡ shown_parent (decoded view.now) (word_of id) }
{
    view.live_parent(NodeSlot(id.index))
}

// The same of any handle.
pub fn shown_parent(view: &View<'_>, id: NodeId) -> Option<NodeId>
    ensures { handle_of result ≡ shown_parent (decoded view.now) (word_of id) }
{
    if view.resolves(id) {
        live_shown_parent(view, id)
    } else {
        None
    }
}

// Whether a handle resolves to an element.
pub fn shows_element(view: &View<'_>, id: NodeId) -> bool
    ensures { result ≡ shows_element (decoded view.now) (word_of id) }
{
    view.resolves(id) && view.is_element(NodeSlot(id.index))
}
