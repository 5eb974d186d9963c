// The lent part of n slots: generations n, free stack n, records 12 n, order words n. Its readers and writers.
ghost use Rattle.std.specs.Prelude.{◌≡◌, ◌<◌, ◌≤◌, length};
ghost use Rattle.slots.specs.Regions.{slots_words, generation_at, record_at, node_at, order_at, put_record, put_order, clear_order, key_of};

use records::decode::node_of;
use records::named::{RECORD_WORDS, read_record, write_record};
use records::{Node, NodeRecord};
use words::NodeSlot;

// The words of a slot: a generation, an entry of the free stack, a record, an order word.
pub const SLOT_WORDS: usize = 15;

// Where the records start, in words a slot.
pub const RECORDS_AT: usize = 2;

// Where the order words start.
pub const ORDERS_AT: usize = 14;

// The lent part, to read.
#[derive(Clone, Copy)]
pub struct Slots<'a> {
    pub words: &'a [u64],
    pub n: usize,
    pub ghost long: { slots_words n ≤ length words.now },
}

impl Slots<'_> {
    pub fn record(&self, slot: NodeSlot) -> NodeRecord
        requires { slot.0 < self.now.n }
        ensures { result ≡ record_at self.now.n self.now.words.now slot.0 }
    {
        let start = self.n * RECORDS_AT + slot.0 as usize * RECORD_WORDS;
        let end = start + RECORD_WORDS;
        read_record(&self.words[start..end])
    }

    // The node in a slot, if its words are one.
    #[tactic(auto, unfolding(crate::specs::Regions::node_at))]
    pub fn node(&self, slot: NodeSlot) -> Option<Node>
        requires { slot.0 < self.now.n }
        ensures { result ≡ node_at self.now.n self.now.words.now slot.0 }
    {
        node_of(self.record(slot))
    }

    #[tactic(auto, unfolding(crate::specs::Regions::generation_at))]
    pub fn generation(&self, slot: NodeSlot) -> u64
        requires { slot.0 < self.now.n }
        ensures { result ≡ generation_at self.now.n self.now.words.now slot.0 }
    {
        self.words[slot.0 as usize]
    }

    #[tactic(auto, unfolding(crate::specs::Regions::order_at))]
    pub fn order_word(&self, slot: NodeSlot) -> u64
        requires { slot.0 < self.now.n }
        ensures { result ≡ order_at self.now.n self.now.words.now slot.0 }
    {
        self.words[self.n * ORDERS_AT + slot.0 as usize]
    }

    // A slot's position in document order. A word above 32 bits, and 4,294,967,295, are none.
    #[tactic(auto, unfolding(crate::specs::Regions::key_of))]
    pub fn order_key(&self, slot: NodeSlot) -> Option<u32>
        requires { slot.0 < self.now.n }
        ensures { result ≡ key_of (order_at self.now.n self.now.words.now slot.0) }
    {
        let word = self.order_word(slot);
        if word < 4294967295 {
            Some(word as u32)
        } else {
            None
        }
    }
}

// Stays: the writers take the words and n, since the prover knows only the length of a part that was lent to a view by `&mut mem[..end]`.
pub fn store_record(words: &mut [u64], n: usize, slot: NodeSlot, r: NodeRecord)
    requires { (slots_words n ≤ length words.old) × (slot.0 < n) }
    ensures { words.new ≡ put_record n words.old slot.0 r }
{
    let start = n * RECORDS_AT + slot.0 as usize * RECORD_WORDS;
    let end = start + RECORD_WORDS;
    write_record(&mut words[start..end], r);
}

#[tactic(auto, unfolding(crate::specs::Regions::put_order))]
pub fn put_order(words: &mut [u64], n: usize, slot: NodeSlot, key: u64)
    requires { (slots_words n ≤ length words.old) × (slot.0 < n) }
    ensures { words.new ≡ put_order n words.old slot.0 key }
{
    words[n * ORDERS_AT + slot.0 as usize] = key;
}

// No slot made has a position.
#[tactic(auto, unfolding(crate::specs::Regions::clear_order))]
pub fn clear_order(words: &mut [u64], n: usize, made: usize)
    requires { (slots_words n ≤ length words.old) × (made ≤ n) }
    ensures { words.new ≡ clear_order n words.old made }
{
    words::fill(words, n * ORDERS_AT, made, 4294967295);
}
