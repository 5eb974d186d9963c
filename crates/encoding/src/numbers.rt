// What a reading call answers, as numbers: they are written to the front of a slice, and the status is returned.
ghost use Rattle.records.specs.Handles.{word_of};
ghost use Rattle.encoding.specs.Records.{truth_word};
ghost use Rattle.std.specs.Prelude.{◌≡◌, ◌∷◌, [], Ok, ◌≤◌, length};
ghost use Rattle.words.specs.Parts.{put};
ghost use Rattle.encoding.specs.Given.{status_of, given_to, behind_one, root_words, truth_words, node_words, key_words, list_words, name_words, count_words, kind_words};

use crate::answer::refused;
use model::Refusal;
use records::encode::record_of;
use records::{Node, NodeData, NodeId, Range};
use words::NameId;

// Writes words over the first ones of a slice.
pub fn put<const N: usize>(out: &mut [u64], words: [u64; N])
    requires { N ≤ length out.old }
    ensures { out.new ≡ put 0 words.entry out.old }
{
    out[..N].copy_from_slice(&words);
}

// Writes the words of an answer over the first ones of a slice; the status.
pub fn give<const N: usize>(out: &mut [u64], answer: Result<[u64; N], Refusal>) -> u64
    requires { N ≤ length out.old }
    ensures { (result ≡ status_of answer.entry) × (out.new ≡ given_to out.old answer.entry) }
{
    match answer {
        Ok(words) => {
            put(out, words);
            0
        }
        Err(why) => refused(why),
    }
}

pub fn give_root(answer: &mut [u64], r: Result<NodeId, Refusal>) -> u64
    requires { 1 ≤ length answer.old }
    ensures { (result ≡ status_of (root_words r)) × (answer.new ≡ given_to answer.old (root_words r)) }
{
    give(
        answer,
        r.map(
            |id: NodeId| -> [u64; 1]
                ensures { result ≡ word_of id ∷ [] }
            { [u64::from(id)] },
        ),
    )
}

pub fn give_truth(answer: &mut [u64], r: Result<bool, Refusal>) -> u64
    requires { 1 ≤ length answer.old }
    ensures { (result ≡ status_of (truth_words r)) × (answer.new ≡ given_to answer.old (truth_words r)) }
{
    give(
        answer,
        r.map(
            |t: bool| -> [u64; 1]
                ensures { result ≡ truth_word t ∷ [] }
            { [u64::from(t)] },
        ),
    )
}

// 1 with a number, or 0 with 0.
pub fn behind_one(number: Option<u64>) -> [u64; 2]
    ensures { result ≡ behind_one number }
{
    match number {
        Some(n) => [1, n],
        None => [0, 0],
    }
}

pub fn give_node(answer: &mut [u64], r: Result<Option<NodeId>, Refusal>) -> u64
    requires { 2 ≤ length answer.old }
    ensures { (result ≡ status_of (node_words r)) × (answer.new ≡ given_to answer.old (node_words r)) }
{
    give(
        answer,
        r.map(
            |found: Option<NodeId>| -> [u64; 2]
                ensures { Ok result ≡ node_words (Ok found) }
            { behind_one(found.map(u64::from)) },
        ),
    )
}

pub fn give_key(answer: &mut [u64], r: Result<Option<u32>, Refusal>) -> u64
    requires { 2 ≤ length answer.old }
    ensures { (result ≡ status_of (key_words r)) × (answer.new ≡ given_to answer.old (key_words r)) }
{
    give(
        answer,
        r.map(
            |found: Option<u32>| -> [u64; 2]
                ensures { result ≡ behind_one found }
            { behind_one(found.map(u64::from)) },
        ),
    )
}

pub fn give_list(answer: &mut [u64], r: Result<Range, Refusal>) -> u64
    requires { 2 ≤ length answer.old }
    ensures { (result ≡ status_of (list_words r)) × (answer.new ≡ given_to answer.old (list_words r)) }
{
    give(
        answer,
        r.map(
            |block: Range| -> [u64; 2]
                ensures { result ≡ block.start ∷ block.len ∷ [] }
            { [u64::from(block.start), u64::from(block.len)] },
        ),
    )
}

// What a node is stands in the words of its record; 7 is no kind.
#[tactic(auto, unfolding(crate::specs::Given::data_words, records::specs::Records::record_of))]
fn kind_found(found: Option<NodeData>) -> [u64; 8]
    ensures { Ok result ≡ kind_words (Ok found) }
{
    let Some(data) = found else {
        return [7, 0, 0, 0, 0, 0, 0, 0];
    };
    let record = record_of(Node {
        data,
        parent: None,
        children: Range { start: 0, len: 0 },
    });
    [
        record.kind,
        record.name,
        record.first,
        record.second,
        record.attributes.start,
        record.attributes.len,
        record.namespaces.start,
        record.namespaces.len,
    ]
}

pub fn give_kind(answer: &mut [u64], r: Result<Option<NodeData>, Refusal>) -> u64
    requires { 8 ≤ length answer.old }
    ensures { (result ≡ status_of (kind_words r)) × (answer.new ≡ given_to answer.old (kind_words r)) }
{
    give(answer, r.map(kind_found))
}

pub fn give_name(answer: &mut [u64], r: Result<Option<NameId>, Refusal>) -> u64
    requires { 1 ≤ length answer.old }
    ensures { (result ≡ status_of (name_words r)) × (answer.new ≡ given_to answer.old (name_words r)) }
{
    give(
        answer,
        r.map(
            |found: Option<NameId>| -> [u64; 1]
                ensures { Ok result ≡ name_words (Ok found) }
            { [u64::from(found.is_some())] },
        ),
    )
}

pub fn give_count(answer: &mut [u64], r: Result<usize, Refusal>) -> u64
    requires { 1 ≤ length answer.old }
    ensures { (result ≡ status_of (count_words r)) × (answer.new ≡ given_to answer.old (count_words r)) }
{
    give(
        answer,
        r.map(
            |n: usize| -> [u64; 1]
                ensures { result ≡ n ∷ [] }
            { [n as u64] },
        ),
    )
}
