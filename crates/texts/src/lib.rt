// The text pool: where the text of each slot ends, the stack of released slots, then the bytes, one a word, joined without gaps in slot order.
#![tactic(auto)]

ghost use Rattle.std.specs.Prelude.{◌≡◌, ◌+◌, ◌≤◌, length};
ghost use Rattle.texts.specs.Words.{bytes_at, place_shown, text_shown, counts_fit};

use words::TextSlot;

pub mod check;
pub mod storing;

// How many text slots, and how many bytes of texts, there may be.
#[derive(Clone, Copy)]
pub struct TextLimits {
    pub slots: usize,
    pub bytes: usize,
}

// How many slots were made, how many of them are free, and how many bytes are used.
#[derive(Clone, Copy)]
pub struct TextCounts {
    pub slots: usize,
    pub free: usize,
    pub bytes: usize,
}

// The words of a pool, as many as the limits say, with how much of them is in use.
#[derive(Clone, Copy)]
pub struct TextPool<'a> {
    pub words: &'a [u64],
    pub limits: TextLimits,
    pub counts: TextCounts,
    pub ghost sized: { length words.now ≡ bytes_at limits + limits.bytes },
}

impl<'a> TextPool<'a> {
    // Where the text of a slot lies, counted from the first byte; an empty place for a number outside the table or bytes outside the pool.
    #[tactic(auto, unfolding(crate::specs::Words::place_shown))]
    pub fn place(self, slot: TextSlot) -> words::ends::Place
        ensures { result ≡ place_shown self.entry.limits self.entry.counts slot.0 self.entry.words.now }
    {
        let n = self.counts.slots.min(self.limits.slots);
        let used = self.counts.bytes.min(self.limits.bytes);
        words::ends::locate(self.words, n, used, slot.0 as usize)
    }

    // Its bytes, as a part of the pool.
    #[tactic(auto, unfolding(crate::specs::Words::text_shown))]
    pub fn text(self, slot: TextSlot) -> &'a [u64]
        ensures { result.now ≡ text_shown self.entry.limits self.entry.counts slot.0 self.entry.words.now }
    {
        let n = self.counts.slots.min(self.limits.slots);
        let used = self.counts.bytes.min(self.limits.bytes);
        let base = self.limits.slots + self.limits.slots;
        words::ends::piece(self.words, base, n, used, slot.0 as usize)
    }
}

// Whether k more text slots, and the bytes once off are given back and on added, are within the limits.
#[tactic(auto, unfolding(crate::specs::Words::counts_fit))]
pub fn texts_fit(limits: TextLimits, counts: TextCounts, k: usize, off: usize, on: usize) -> bool
    requires { (counts.slots ≤ limits.slots) × (counts.bytes ≤ limits.bytes) × (off ≤ counts.bytes) }
    ensures { result ≡ counts_fit limits counts k off on }
{
    if on > limits.bytes - (counts.bytes - off) {
        return false;
    }
    let room = limits.slots - counts.slots;
    k <= room || k - room <= counts.free
}
