// The calls that remove and detach.
ghost use Rattle.std.specs.Prelude.{[]};
ghost use Rattle.model.specs.Calls.{remove-attribute, remove, detach};
ghost use Rattle.exports.specs.Contract.{Exported, as_done, as_truth};

use encoding::answer::{give_done, give_found, refused};
use encoding::record::lent_record;
use model::Refusal;
use records::NodeId;

// Stays: the C interface has a function for each call; what they have in common is `lent_record` and what gives the answer.
// An attribute of an element goes, where there is one. Rules out 1 where there was none.
pub fn oxml_remove_attribute(
    document: &mut [u64],
    memory: &mut [u64],
    scratch: &mut [u64],
    element: u64,
    namespace: &[u8],
    local: &[u8],
    found: &mut [u64],
) -> u64
    ensures { Exported (remove-attribute element namespace.now local.now) 1 as_truth document.old memory.old scratch.old found.old result document.new memory.new scratch.new found.new }
{
    let Some(d) = lent_record(&document[..], found.len(), 1) else {
        return refused(Refusal::BadBuffers);
    };
    let id = NodeId::from(element);
    let answer = removing::attribute::remove_attribute(d, memory, scratch, id, namespace, local);
    give_found(document, found, answer)
}

// A node goes, with all below it. Rules out a handle below it that resolves then.
pub fn oxml_remove(document: &mut [u64], memory: &mut [u64], scratch: &mut [u64], id: u64) -> u64
    ensures { Exported (remove id) 0 as_done document.old memory.old scratch.old [] result document.new memory.new scratch.new [] }
{
    let Some(d) = lent_record(&document[..], 0, 0) else {
        return refused(Refusal::BadBuffers);
    };
    let id = NodeId::from(id);
    let answer = removing::remove::remove(d, memory, scratch, id);
    give_done(document, answer)
}

// A node leaves its parent. Rules out a node that is freed.
pub fn oxml_detach(document: &mut [u64], memory: &mut [u64], scratch: &mut [u64], id: u64) -> u64
    ensures { Exported (detach id) 0 as_done document.old memory.old scratch.old [] result document.new memory.new scratch.new [] }
{
    let Some(d) = lent_record(&document[..], 0, 0) else {
        return refused(Refusal::BadBuffers);
    };
    let id = NodeId::from(id);
    let answer = removing::detach::detach(d, memory, scratch, id);
    give_done(document, answer)
}
