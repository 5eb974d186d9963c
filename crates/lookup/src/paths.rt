// The way up from a node: whether a move would make a cycle.
ghost use Rattle.std.specs.Prelude.{◌≡◌, length};
ghost use Rattle.records.specs.Handles.{word_of};
ghost use Rattle.model.specs.Doc.{parent_at, on_path};
ghost use Rattle.memory.specs.Decode.{handle_of, parent_loaded};
ghost use Rattle.memory.specs.View.{decoded};

use memory::read::made;
use memory::view::View;
use records::{Node, NodeId};
use words::NodeSlot;

fn loaded_parent(node: Option<Node>) -> Option<NodeId>
    ensures { handle_of result ≡ parent_loaded node }
{
    node.and_then(|found| found.parent)
}

// The parent of the node in a handle's slot.
pub fn parent_of(view: &View<'_>, word: u64) -> Option<NodeId>
    ensures { handle_of result ≡ parent_at (decoded view.now) word }
{
    let index = word % 4294967296;
    if index < made(view.document) as u64 {
        return loaded_parent(view.load(NodeSlot(index as u32)));
    }
    None
}

// Whether a node is the given one or above it. There are no more steps up than slots.
pub fn on_path(view: &View<'_>, node: NodeId, below: NodeId) -> bool
    ensures { result ≡ on_path (length (decoded view.now).gens) (decoded view.now) (word_of node) (word_of below) }
{
    let top = u64::from(node);
    let mut at = u64::from(below);
    for _ in 0..made(view.document) {
        if at == top {
            return true;
        }
        match parent_of(view, at) {
            None => return false,
            Some(id) => at = u64::from(id),
        }
    }
    false
}
