// A node's list as it stands in its arena, entries written behind others, and a node's lists pushed on a stack.
ghost use Rattle.std.specs.Prelude.{◌≡◌, reverse, ◌+◌, ◌≤◌, length};
ghost use Rattle.words.specs.Parts.{put};
ghost use Rattle.model.specs.Kinds.{Which};
ghost use Rattle.model.specs.Doc.{list_in};
ghost use Rattle.layout.specs.Layout.{which_of};
ghost use Rattle.memory.specs.View.{decoded};
ghost use Rattle.walks.specs.Order.{ListHeld, pushed_in};
ghost use Rattle.walks.specs.Stack.{pushed};

use crate::stack::Stack;
use layout::Arena;
use memory::view::View;
use words::NodeSlot;

// The list of the live node in a slot, a part of the memory.
pub fn list_of<'a>(view: &View<'a>, slot: NodeSlot, arena: Arena) -> &'a [u64]
    requires { ListHeld view.now.document view.now.words.now (which_of arena) slot.0 }
    ensures { result.now ≡ list_in (decoded view.now) (which_of arena) slot.0 }
{
    let block = view.live_block(slot, arena);
    view.block_words(arena, block)
}

// Writes the entries from a height on, the first first, and answers the height behind them.
pub fn push_entries(stack: &mut [u64], height: usize, entries: &[u64]) -> usize
    requires { height + length entries.now ≤ length stack.old }
    ensures value { result ≡ height + length entries.now }
    ensures stack_after { stack.new ≡ put height entries.now stack.old }
{
    words::write_words(stack, height, entries);
    height + entries.len()
}

// Pushes the children, the attributes and the namespaces of the node in a slot.
pub fn push_lists(view: &View<'_>, stack: &mut Stack<'_>, slot: NodeSlot)
    requires { ((w : Which) → ListHeld view.now.document view.now.words.now w slot.0) × (length (pushed_in (decoded view.now) slot.0) ≤ length stack.old.free) }
    ensures { stack.new ≡ pushed (reverse (pushed_in (decoded view.now) slot.0)) stack.old }
{
    stack.push_all(list_of(view, slot, Arena::Children));
    stack.push_all(list_of(view, slot, Arena::Attributes));
    stack.push_all(list_of(view, slot, Arena::Namespaces));
}
