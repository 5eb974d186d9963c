// A node, with all below it, goes to a list of children.
ghost use Rattle.records.specs.Handles.{word_of};
ghost use Rattle.model.specs.Calls.{reparent, insert-at};
ghost use Rattle.editing.specs.Contract.{Edits};
ghost use Rattle.editing.specs.Answers.{of_done, after_done};

use editing::admission::admit;
use edits::moves::{move_last, move_to};
use layout::Document;
use memory::lent::Lent;
use model::Refusal;
use plans::moves::plan_move;
use records::NodeId;

// Rules out a place before the last, and a move under a node of its own subtree.
pub fn reparent(
    d: Document,
    mem: &mut [u64],
    scratch: &mut [u64],
    child: NodeId,
    parent: NodeId,
) -> Result<Document, Refusal>
    ensures { Edits (reparent (word_of child) (word_of parent)) d mem.old scratch.old (of_done result) (after_done d result) mem.new scratch.new }
{
    let doc = admit(d, mem, scratch)?;
    plan_move(&doc, parent, child)?;
    let mut lent = Lent {
        document: d,
        words: mem,
    };
    move_last(&mut lent, parent, child);
    Ok(lent.document)
}

// Rules out an index that is counted before the child was taken off its old place, and a second element under the Root.
pub fn insert_at(
    d: Document,
    mem: &mut [u64],
    scratch: &mut [u64],
    parent: NodeId,
    at: usize,
    child: NodeId,
) -> Result<Document, Refusal>
    ensures { Edits (insert-at (word_of parent) at (word_of child)) d mem.old scratch.old (of_done result) (after_done d result) mem.new scratch.new }
{
    let doc = admit(d, mem, scratch)?;
    plan_move(&doc, parent, child)?;
    let mut lent = Lent {
        document: d,
        words: mem,
    };
    move_to(&mut lent, parent, at, child);
    Ok(lent.document)
}
