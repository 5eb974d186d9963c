// Releasing texts: each slot goes on the stack, and then the bytes of all of them are given back in one pass.
ghost use Rattle.std.specs.Prelude.{◌≡◌, cond, ◌≤◌, ◌<◌, length, eqb};
ghost use Rattle.words.specs.Lists.{tabulate};
ghost use Rattle.texts.specs.Pool.{bytes_of};
ghost use Rattle.texts.specs.Words.{bytes_at, pool_of, Counted, PushedTo, kept_text, laid, Reclaimable, ReclaimedTo};

use texts::check::mark_free;
use texts::{TextCounts, TextLimits};
use words::TextSlot;

// Pushes a slot on the stack. Its bytes stay until `reclaim`.
pub fn push_slot(
    words: &mut [u64],
    limits: TextLimits,
    counts: TextCounts,
    slot: TextSlot,
) -> TextCounts
    requires { Counted limits counts words.old × (counts.free < limits.slots) }
    ensures { PushedTo limits counts words.old words.new slot.0 result }
{
    words[limits.slots + counts.free] = slot.0 as u64;
    let free = counts.free + 1;
    TextCounts { free, ..counts }
}

// How many of its bytes a text keeps: none where its slot has a mark.
fn kept_length(len: usize, mark: u64) -> usize
    ensures { result ≡ cond (eqb mark 0) len 0 }
{
    if mark == 0 { len } else { 0 }
}

// Moves the texts without a mark down over the bytes of the others, which get length 0. Answers how many bytes are used then.
fn close_gaps(words: &mut [u64], limits: TextLimits, counts: TextCounts, marks: &[u64]) -> usize
    requires { Counted limits counts words.old × (counts.slots ≤ length marks.now) }
    ensures words_after { words.new ≡ laid (bytes_at limits) (tabulate (kept_text marks.now (pool_of limits counts words.old).texts) counts.slots) words.old }
    ensures value { result ≡ length (bytes_of (tabulate (kept_text marks.now (pool_of limits counts words.old).texts) counts.slots)) }
    ensures upper_bound { result ≤ counts.bytes }
{
    let base = limits.slots + limits.slots;
    let mut from = 0;
    let mut to = 0;
    for slot in 0..counts.slots {
        let end = words[slot] as usize;
        let kept = kept_length(end - from, marks[slot]);
        words::copy(words, base + from, kept, base + to);
        to += kept;
        words[slot] = to as u64;
        from = end;
    }
    to
}

// Gives back the bytes of every slot on the stack: one pass over the texts, however many they are.
pub fn reclaim(
    words: &mut [u64],
    limits: TextLimits,
    counts: TextCounts,
    marks: &mut [u64],
) -> TextCounts
    requires { Reclaimable limits counts words.old × (counts.slots ≤ length marks.old) }
    ensures { ReclaimedTo limits counts words.old words.new result }
{
    marks.fill(0);
    mark_free(words, limits, counts, marks);
    let bytes = close_gaps(words, limits, counts, marks);
    TextCounts { bytes, ..counts }
}
