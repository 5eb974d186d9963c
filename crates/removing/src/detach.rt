// A node is taken off its parent and stays a tree of its own.
ghost use Rattle.records.specs.Handles.{word_of};
ghost use Rattle.model.specs.Calls.{detach};
ghost use Rattle.editing.specs.Contract.{Edits};
ghost use Rattle.editing.specs.Answers.{of_done, after_done};

use editing::admission::admit;
use edits::moves::detach_node;
use layout::Document;
use memory::lent::Lent;
use model::Refusal;
use plans::removals::plan_detach;
use records::NodeId;

// Rules out a node that keeps its parent, and 6 for a node that has none.
pub fn detach(
    d: Document,
    mem: &mut [u64],
    scratch: &mut [u64],
    id: NodeId,
) -> Result<Document, Refusal>
    ensures { Edits (detach (word_of id)) d mem.old scratch.old (of_done result) (after_done d result) mem.new scratch.new }
{
    let doc = admit(d, mem, scratch)?;
    plan_detach(&doc.view, id)?;
    let mut lent = Lent {
        document: d,
        words: mem,
    };
    detach_node(&mut lent, id);
    Ok(lent.document)
}
