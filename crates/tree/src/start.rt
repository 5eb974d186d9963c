// The start of a document: the Root alone.
ghost use Rattle.tree.specs.Contract.{Starts};
ghost use Rattle.tree.specs.Answers.{of_start, started_record};

use layout::{Document, Limits};
use memory::view::View;
use model::Refusal;

// The record that goes with the memory. Rules out a word of the document that is left as it was, and a write past its words.
pub fn start(l: Limits, mem: &mut [u64]) -> Result<Document, Refusal>
    ensures { Starts l mem.old (of_start result) (started_record l result) mem.new }
{
    let d = layout::record::fresh_record(l);
    View::of(d, mem)?;
    mem[..layout::document_words(l)].fill(0);
    Ok(d)
}
