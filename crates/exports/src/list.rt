// Names by number, and every live node.
ghost use Rattle.std.specs.Prelude.{◌≡◌, min};
ghost use Rattle.model.specs.Calls.{name_of};
ghost use Rattle.exports.specs.Contract.{ExportedRead, ExportedNodes, as_name};

use encoding::answer::refused;
use encoding::numbers::{give_count, give_name};
use encoding::record::lent_record;
use model::Refusal;
use words::NameId;

// No number above 32 bits has a name, and the greatest below has none.
pub fn name_id(number: u64) -> NameId
    ensures { result.0 ≡ min number 4294967295 }
{
    NameId(number.min(4294967295) as u32)
}

// Stays: the C interface has a function for each call; what they have in common is `lent_record` and what gives the answer.
// 1 where the number has a name, else 0. Rules out a name for the number's low half.
pub fn oxml_name(document: &[u64], memory: &[u64], number: u64, answer: &mut [u64]) -> u64
    ensures { ExportedRead (name_of number) 1 (as_name number) document.now memory.now answer.old result answer.new }
{
    let Some(d) = lent_record(document, answer.len(), 1) else {
        return refused(Refusal::BadBuffers);
    };
    give_name(answer, reading::name::name(d, memory, name_id(number)))
}

// The handles of all live nodes go to list, which holds as many as the node limit, and their count to answer. Rules out a handle of a free slot.
pub fn oxml_nodes(document: &[u64], memory: &[u64], list: &mut [u64], answer: &mut [u64]) -> u64
    ensures { ExportedNodes document.now memory.now list.old answer.old result list.new answer.new }
{
    let Some(d) = lent_record(document, answer.len(), 1) else {
        return refused(Refusal::BadBuffers);
    };
    give_count(answer, reading::nodes::nodes(d, memory, list))
}
