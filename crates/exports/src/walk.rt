// The nodes below a node, in document order, itself and all attributes and namespaces left out.
ghost use Rattle.exports.specs.Walks.{ExportedWalk, ExportedNext, ExportedBelow};

use encoding::answer::refused;
use encoding::numbers::give_count;
use encoding::positions::{give_next, give_start, position_of};
use encoding::record::lent_record;
use model::Refusal;
use records::NodeId;

// Stays: the C interface has a function for each call; what they have in common is `lent_record` and what gives the answer.
// A walk below the zone begins: seven words go to position. Rules out a refusal of a handle that is stale.
pub fn oxml_descendants_of(document: &[u64], memory: &[u64], zone: u64, position: &mut [u64]) -> u64
    ensures { ExportedWalk zone document.now memory.now position.old result position.new }
{
    let Some(d) = lent_record(document, position.len(), 7) else {
        return refused(Refusal::BadBuffers);
    };
    let id = NodeId::from(zone);
    let answer = descendants::walk::descendants_of(d, memory, id);
    give_start(position, answer)
}

// 1 and the next node of a walk, at which position then is; 0 and 0 at the end. Rules out a position that moves at the end.
pub fn oxml_walk_next(
    document: &[u64],
    memory: &[u64],
    position: &mut [u64],
    answer: &mut [u64],
) -> u64
    ensures { ExportedNext document.now memory.now position.old answer.old result position.new answer.new }
{
    if answer.len() < 2 {
        return refused(Refusal::BadBuffers);
    }
    let Some(d) = lent_record(document, position.len(), 7) else {
        return refused(Refusal::BadBuffers);
    };
    let at = position_of(&position[..]);
    let found = descendants::walker::next_held(d, memory, at);
    give_next(position, answer, found)
}

// The whole walk: the handles go to list, which holds as many as the node limit, and their count to answer. Rules out a word written past the last handle.
pub fn oxml_list_below(
    document: &[u64],
    memory: &[u64],
    zone: u64,
    list: &mut [u64],
    answer: &mut [u64],
) -> u64
    ensures { ExportedBelow zone document.now memory.now list.old answer.old result list.new answer.new }
{
    let Some(d) = lent_record(document, answer.len(), 1) else {
        return refused(Refusal::BadBuffers);
    };
    let id = NodeId::from(zone);
    let written = descendants::list::list_below(d, memory, id, list);
    give_count(answer, written)
}
