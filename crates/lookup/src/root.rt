// The element among the Root's children.
ghost use Rattle.std.specs.Prelude.{◌≡◌, ◌+◌, ◌≤◌};
ghost use Rattle.records.specs.Handles.{word_of};
ghost use Rattle.model.specs.Kinds.{children};
ghost use Rattle.model.specs.Doc.{root_handle, shown_block, shows_element, root_element};
ghost use Rattle.model.specs.Calls.{root_taken};
ghost use Rattle.memory.specs.Decode.{block_of, handle_of};
ghost use Rattle.memory.specs.View.{decoded};

use crate::views::is_element;
use layout::Arena;
use memory::view::{Undamaged, View};
use records::{NodeId, Range};

// The block of the Root's children.
fn root_children(doc: &Undamaged<'_>) -> Range
    ensures { (block_of result ≡ shown_block (decoded doc.now.view) children root_handle) × (result.start + result.len ≤ doc.now.view.document.limits.children) }
{
    let root = NodeId {
        index: 0,
        generation: 0,
    };
    match doc.view.resolve(root) {
        Some(node) => node.children,
        None => Range { start: 0, len: 0 },
    }
}

fn shows_element(view: &View<'_>, word: u64) -> bool
    ensures { result ≡ shows_element (decoded view.now) word }
{
    is_element(view, NodeId::from(word))
}

pub fn root_element(doc: &Undamaged<'_>) -> Option<NodeId>
    ensures { handle_of result ≡ root_element (decoded doc.now.view) }
{
    let block = root_children(doc);
    doc.view
        .block_words(Arena::Children, block)
        .iter()
        .copied()
        .find(|&word| shows_element(&doc.view, word))
        .map(NodeId::from)
}

// Whether the Root has an element child.
pub fn root_taken(doc: &Undamaged<'_>) -> bool
    ensures { result ≡ root_taken (decoded doc.now.view) None }
{
    root_element(doc).is_some()
}

// The same, other than this one.
pub fn root_taken_by_other(doc: &Undamaged<'_>, id: NodeId) -> bool
    ensures { result ≡ root_taken (decoded doc.now.view) (Some (word_of id)) }
{
    root_element(doc).is_some_and(|found| u64::from(found) != u64::from(id))
}
