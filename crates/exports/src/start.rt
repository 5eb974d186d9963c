// The start of a document.
ghost use Rattle.exports.specs.Contract.{ExportedStart};

use encoding::answer::{give_done, refused};
use encoding::record::lent_record;
use model::Refusal;

// The limits are the record's first 8 words. Rules out counts that the record had before.
pub fn oxml_start(document: &mut [u64], memory: &mut [u64]) -> u64
    ensures { ExportedStart document.old memory.old result document.new memory.new }
{
    let Some(d) = lent_record(&document[..], 0, 0) else {
        return refused(Refusal::BadBuffers);
    };
    let answer = tree::start::start(d.limits, memory);
    give_done(document, answer)
}
