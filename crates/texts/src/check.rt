// What the pool alone can say of structure rules 1 and 8, and the marks for who counts owners.
ghost use Rattle.std.specs.Prelude.{◌≡◌, ◌+◌, ◌≤◌, length};
ghost use Rattle.words.specs.Parts.{part};
ghost use Rattle.words.specs.Lists.{all};
ghost use Rattle.texts.specs.Words.{free_ok, pool_ok, Markable, marked};

use crate::{TextCounts, TextLimits, TextPool};
use words::ends::{check_ends, piece_start};

impl TextPool<'_> {
    // Whether a slot was made, and has length 0.
    fn is_free(self, slot: u64) -> bool
        requires { self.counts.slots ≤ self.limits.slots }
        ensures { result ≡ free_ok self.entry.counts.slots self.entry.words.now slot }
    {
        slot < self.counts.slots as u64
            && self.words[slot as usize] == piece_start(self.words, slot as usize)
    }

    // Whether each entry of the stack is a slot that was made, of length 0.
    fn are_free(self) -> bool
        requires { (self.counts.slots ≤ self.limits.slots) × (self.counts.free ≤ self.limits.slots) }
        ensures { result ≡ all (free_ok self.entry.counts.slots self.entry.words.now) (part self.entry.limits.slots self.entry.counts.free self.entry.words.now) }
    {
        self.words[self.limits.slots..self.limits.slots + self.counts.free]
            .iter()
            .all(|slot| self.is_free(*slot))
    }

    // Whether the counts are within the limits, the ends reach the bytes used, and the free slots are slots without bytes.
    #[tactic(auto, unfolding(crate::specs::Words::pool_ok))]
    pub fn is_sound(self) -> bool
        ensures { result ≡ pool_ok self.entry.limits self.entry.counts self.entry.words.now }
    {
        self.counts.slots <= self.limits.slots
            && self.counts.free <= self.limits.slots
            && self.counts.bytes <= self.limits.bytes
            && check_ends(self.words, self.counts.slots, self.counts.bytes)
            && self.are_free()
    }
}

// Adds 1 to the mark of each free slot.
// Stays: no method, since a `TextPool` would ask its callers for the length of the words too.
pub fn mark_free(words: &[u64], limits: TextLimits, counts: TextCounts, marks: &mut [u64])
    requires free_in_bounds { limits.slots + counts.free ≤ length words.now }
    requires markable { Markable (part limits.slots counts.free words.now) marks.old }
    ensures { marks.new ≡ marked (part limits.slots counts.free words.now) marks.old }
{
    for slot in &words[limits.slots..limits.slots + counts.free] {
        marks[*slot as usize] += 1;
    }
}
