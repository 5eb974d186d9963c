// The calls that move a node.
ghost use Rattle.std.specs.Prelude.{[]};
ghost use Rattle.model.specs.Calls.{reparent, insert-at};
ghost use Rattle.exports.specs.Contract.{Exported, as_done};

use encoding::answer::{give_done, refused};
use encoding::record::lent_record;
use model::Refusal;
use records::NodeId;

// Stays: the C interface has a function for each call; what they have in common is `lent_record` and what gives the answer.
// A node goes behind another's children. Rules out child and parent swapped.
pub fn oxml_reparent(
    document: &mut [u64],
    memory: &mut [u64],
    scratch: &mut [u64],
    child: u64,
    parent: u64,
) -> u64
    ensures { Exported (reparent child parent) 0 as_done document.old memory.old scratch.old [] result document.new memory.new scratch.new [] }
{
    let Some(d) = lent_record(&document[..], 0, 0) else {
        return refused(Refusal::BadBuffers);
    };
    let child_id = NodeId::from(child);
    let parent_id = NodeId::from(parent);
    let answer = moving::moves::reparent(d, memory, scratch, child_id, parent_id);
    give_done(document, answer)
}

// A node goes among another's children. Rules out an index that is counted before the unlink.
pub fn oxml_insert_at(
    document: &mut [u64],
    memory: &mut [u64],
    scratch: &mut [u64],
    parent: u64,
    at: u64,
    child: u64,
) -> u64
    ensures { Exported (insert-at parent at child) 0 as_done document.old memory.old scratch.old [] result document.new memory.new scratch.new [] }
{
    let Some(d) = lent_record(&document[..], 0, 0) else {
        return refused(Refusal::BadBuffers);
    };
    let parent_id = NodeId::from(parent);
    let child_id = NodeId::from(child);
    let answer = moving::moves::insert_at(d, memory, scratch, parent_id, at as usize, child_id);
    give_done(document, answer)
}
