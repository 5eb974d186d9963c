// Document order, and the arenas rebuilt.
ghost use Rattle.std.specs.Prelude.{[]};
ghost use Rattle.model.specs.Calls.{document-order, compact};
ghost use Rattle.exports.specs.Contract.{Exported, as_done, as_order};

use encoding::answer::{give_done, refused};
use encoding::record::lent_record;
use model::Refusal;

// Stays: the C interface has a function for each call; what they have in common is `lent_record` and what gives the answer.
// The order is made current; `oxml_order_words` shows it. Rules out words of an order that is not.
pub fn oxml_document_order(document: &mut [u64], memory: &mut [u64], scratch: &mut [u64]) -> u64
    ensures { Exported document-order 0 as_order document.old memory.old scratch.old [] result document.new memory.new scratch.new [] }
{
    let Some(d) = lent_record(&document[..], 0, 0) else {
        return refused(Refusal::BadBuffers);
    };
    let answer = ordering::order::document_order(d, memory, scratch);
    give_done(document, answer)
}

// The arenas are rebuilt without gaps. Rules out a list that is changed.
pub fn oxml_compact(document: &mut [u64], memory: &mut [u64], scratch: &mut [u64]) -> u64
    ensures { Exported compact 0 as_done document.old memory.old scratch.old [] result document.new memory.new scratch.new [] }
{
    let Some(d) = lent_record(&document[..], 0, 0) else {
        return refused(Refusal::BadBuffers);
    };
    let answer = ordering::compact::compact(d, memory, scratch);
    give_done(document, answer)
}
