// The position of every node in document order.
ghost use Rattle.model.specs.Calls.{document-order};
ghost use Rattle.editing.specs.Contract.{Edits};
ghost use Rattle.editing.specs.Answers.{of_order, after_done};

use editing::admission::admit;
use layout::Document;
use memory::lent::Lent;
use model::Refusal;
use walks::order::renew_order;

// Rules out the words of an order that is not current, and a key for a slot that was not made.
pub fn document_order(
    d: Document,
    mem: &mut [u64],
    scratch: &mut [u64],
) -> Result<Document, Refusal>
    ensures { Edits document-order d mem.old scratch.old (of_order mem.new result) (after_done d result) mem.new scratch.new }
{
    admit(d, mem, scratch)?;
    if d.current {
        return Ok(d);
    }
    let mut lent = Lent {
        document: d,
        words: mem,
    };
    renew_order(&mut lent, scratch);
    scratch.fill(0);
    Ok(lent.document)
}
