// Whether a node is an element, its parent, and the root element.
ghost use Rattle.std.specs.Prelude.{◌≡◌, ◌+◌, ◌≤◌};
ghost use Rattle.words.specs.Lists.{find};
ghost use Rattle.blocks.specs.Arena.{list_of};
ghost use Rattle.records.specs.Handles.{word_of};
ghost use Rattle.model.specs.Kinds.{children};
ghost use Rattle.model.specs.Doc.{shows_element};
ghost use Rattle.model.specs.Calls.{node, is-element, parent-of, root-element};
ghost use Rattle.layout.specs.Layout.{entries_of};
ghost use Rattle.memory.specs.Decode.{block_of, arena_in};
ghost use Rattle.memory.specs.View.{decoded};
ghost use Rattle.reading.specs.Answers.{of_truth, of_node};
ghost use Rattle.reading.specs.Contract.{reads};

use crate::order::ROOT;
use layout::{Arena, Document};
use memory::view::View;
use model::Refusal;
use records::{NodeId, Range};
use showing::shown::{shown_block, shown_parent, shows_element};

// Rules out true for a stale handle, and true for the Root.
pub fn is_element(d: Document, mem: &[u64], id: NodeId) -> Result<bool, Refusal>
    ensures { of_truth result ≡ reads (is-element (word_of id)) d mem.now }
{
    let view = View::of(d, mem)?;
    Ok(shows_element(&view, id))
}

// Rules out the parent of a stale handle, and a parent for a detached node.
pub fn parent(d: Document, mem: &[u64], id: NodeId) -> Result<Option<NodeId>, Refusal>
    ensures { of_node result ≡ reads (parent-of (word_of id)) d mem.now }
{
    let view = View::of(d, mem)?;
    Ok(shown_parent(&view, id))
}

// The first element of a block of children.
fn first_element(view: &View<'_>, block: Range) -> Option<NodeId>
    requires { block.start + block.len ≤ entries_of view.now.document.limits children }
    ensures { of_node (Ok result) ≡ node (find (shows_element (decoded view.now)) (list_of (arena_in view.now.document children view.now.words.now) (block_of block))) }
{
    for word in view.block_words(Arena::Children, block) {
        let id = NodeId::from(*word);
        if shows_element(view, id) {
            return Some(id);
        }
    }
    None
}

// Rules out the second element in the Root's list, and a child that is no element.
pub fn root_element(d: Document, mem: &[u64]) -> Result<Option<NodeId>, Refusal>
    ensures { of_node result ≡ reads root-element d mem.now }
{
    let view = View::of(d, mem)?;
    let block = shown_block(&view, ROOT, Arena::Children);
    Ok(first_element(&view, block))
}
