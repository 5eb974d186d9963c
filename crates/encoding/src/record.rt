// A document's record as words: its limits, its counts, and whether its order is current.
ghost use Rattle.std.specs.Prelude.{◌≡◌, ◌≤◌, length};
ghost use Rattle.words.specs.Parts.{put};
ghost use Rattle.encoding.specs.Records.{limits_in, counts_in, document_of, truth_word, words_of, lent_record};

use crate::numbers::put;
use layout::{Counts, Document, Limits};

#[tactic(auto, unfolding(crate::specs::Records::limits_in))]
fn limits_in(words: &[u64]) -> Limits
    requires { 19 ≤ length words.now }
    ensures { result ≡ limits_in words.now }
{
    Limits {
        nodes: words[0] as usize,
        children: words[1] as usize,
        attributes: words[2] as usize,
        namespaces: words[3] as usize,
        texts: words[4] as usize,
        textbytes: words[5] as usize,
        names: words[6] as usize,
        namebytes: words[7] as usize,
    }
}

#[tactic(auto, unfolding(crate::specs::Records::counts_in))]
fn counts_in(words: &[u64]) -> Counts
    requires { 19 ≤ length words.now }
    ensures { result ≡ counts_in words.now }
{
    Counts {
        slots: words[8] as usize,
        free: words[9] as usize,
        children: words[10] as usize,
        attributes: words[11] as usize,
        namespaces: words[12] as usize,
        texts: words[13] as usize,
        freetexts: words[14] as usize,
        textbytes: words[15] as usize,
        names: words[16] as usize,
        namebytes: words[17] as usize,
    }
}

#[tactic(auto, unfolding(crate::specs::Records::document_of))]
fn document_of(words: &[u64]) -> Document
    requires { 19 ≤ length words.now }
    ensures { result ≡ document_of words.now }
{
    Document {
        limits: limits_in(words),
        counts: counts_in(words),
        current: words[18] != 0,
    }
}

// The record, where its words are all lent, and room has as many words as are asked for.
#[tactic(auto, unfolding(crate::specs::Records::lent_record, crate::specs::Records::is_lent))]
pub fn lent_record(words: &[u64], room: usize, asked: usize) -> Option<Document>
    ensures { result ≡ lent_record words.now room asked }
{
    if words.len() < 19 || room < asked {
        return None;
    }
    Some(document_of(words))
}

// 1 for true, 0 for false.
pub fn truth_word(t: bool) -> u64
    ensures { result ≡ truth_word t }
{
    u64::from(t)
}

#[tactic(auto, unfolding(crate::specs::Records::words_of))]
pub fn words_of(d: Document) -> [u64; 19]
    ensures { result ≡ words_of d }
{
    let l = d.limits;
    let c = d.counts;
    [
        l.nodes as u64,
        l.children as u64,
        l.attributes as u64,
        l.namespaces as u64,
        l.texts as u64,
        l.textbytes as u64,
        l.names as u64,
        l.namebytes as u64,
        c.slots as u64,
        c.free as u64,
        c.children as u64,
        c.attributes as u64,
        c.namespaces as u64,
        c.texts as u64,
        c.freetexts as u64,
        c.textbytes as u64,
        c.names as u64,
        c.namebytes as u64,
        u64::from(d.current),
    ]
}

// Writes the record over the first words.
pub fn put_record(words: &mut [u64], d: Document)
    requires { 19 ≤ length words.old }
    ensures { words.new ≡ put 0 (words_of d) words.old }
{
    put(words, words_of(d));
}
