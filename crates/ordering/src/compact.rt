// The arenas without gaps, and the order renewed.
ghost use Rattle.model.specs.Calls.{compact};
ghost use Rattle.editing.specs.Contract.{Edits};
ghost use Rattle.editing.specs.Answers.{of_done, after_done};

use compaction::rebuild::do_compact;
use editing::admission::admit;
use layout::Document;
use memory::lent::Lent;
use model::Refusal;

// Rules out a tree outside the Root's that is dropped, and a capacity record where no block starts.
pub fn compact(d: Document, mem: &mut [u64], scratch: &mut [u64]) -> Result<Document, Refusal>
    ensures { Edits compact d mem.old scratch.old (of_done result) (after_done d result) mem.new scratch.new }
{
    admit(d, mem, scratch)?;
    let mut lent = Lent {
        document: d,
        words: mem,
    };
    do_compact(&mut lent, scratch);
    // the stack of the walks stood there
    scratch.fill(0);
    Ok(lent.document)
}
