// Storing and replacing a text.
ghost use Rattle.std.specs.Prelude.{◌≡◌, true, map, ◌+◌, ◌≤◌, ◌<◌, length};
ghost use Rattle.words.specs.Ends.{length_of, moved_end};
ghost use Rattle.texts.specs.Pool.{slots_for};
ghost use Rattle.texts.specs.Words.{start_at, Counted, PoolHeld, counts_fit, Movable, roomed, rewritten, StoredTo, ReplacedTo};

use crate::{TextCounts, TextLimits};
use words::TextSlot;
use words::ends::{Place, piece_start};

// The slot of a stored text, none for one stored empty, and the counts after.
#[derive(Clone, Copy)]
pub struct Stored {
    pub field: Option<TextSlot>,
    pub counts: TextCounts,
}

// Moves the ends behind a text that has len bytes in place of old, and its own.
fn move_ends(ends: &mut [u64], old: usize, len: usize)
    requires { Movable ends.old old len }
    ensures { ends.new ≡ map (moved_end old len) ends.old }
{
    for end in ends {
        *end = *end - old as u64 + len as u64;
    }
}

// Stays: the words to write are no `TextPool`: with `&mut` words each writer has two clauses more, and who lends them must prove by names of the check's own.
// Gives the text of a slot room for len bytes: the bytes behind it move, and so do the ends from it on. Answers at which index its bytes begin, and how many
// it had.
fn make_room(
    words: &mut [u64],
    limits: TextLimits,
    counts: TextCounts,
    slot: TextSlot,
    len: usize,
) -> Place
    requires { Counted limits counts words.old × (slot.0 < counts.slots) × (counts.bytes + len ≤ limits.bytes + length_of words.old slot.0) }
    ensures value { result ≡ record { start = start_at limits words.old slot.0; len = length_of words.old slot.0 } }
    ensures words_after { words.new ≡ roomed limits counts words.old slot.0 len }
{
    let s = slot.0 as usize;
    let start = piece_start(words, s) as usize;
    let old = words[s] as usize - start;
    let at = limits.slots + limits.slots + start;
    if old != len {
        words::copy(words, at + old, counts.bytes - start - old, at + len);
        move_ends(&mut words[s..counts.slots], old, len);
    }
    Place {
        start: at,
        len: old,
    }
}

// Writes a text in place of a slot's own. Answers how many bytes that had.
fn put_text(
    words: &mut [u64],
    limits: TextLimits,
    counts: TextCounts,
    slot: TextSlot,
    text: &[u8],
) -> usize
    requires { Counted limits counts words.old × (slot.0 < counts.slots) × (counts.bytes + length text.now ≤ limits.bytes + length_of words.old slot.0) }
    ensures value { result ≡ length_of words.old slot.0 }
    ensures words_after { words.new ≡ rewritten limits counts words.old slot.0 text.now }
{
    let room = make_room(words, limits, counts, slot, text.len());
    words::pieces::write_bytes(words, room.start, text);
    room.len
}

// Stores a text that is not empty in the last released slot. The limit is such that the number of a slot is of 32 bits.
fn reuse_slot(words: &mut [u64], limits: TextLimits, counts: TextCounts, text: &[u8]) -> Stored
    requires { PoolHeld limits counts words.old × (0 < counts.free) × (0 < length text.now) × (counts.bytes + length text.now ≤ limits.bytes) × (limits.slots ≤ 4294967296) }
    ensures { StoredTo limits counts words.old words.new text.now result }
{
    let free = counts.free - 1;
    let top = words[limits.slots + free];
    let slot = TextSlot(top as u32);
    put_text(words, limits, counts, slot, text);
    let bytes = counts.bytes + text.len();
    Stored {
        field: Some(slot),
        counts: TextCounts {
            free,
            bytes,
            ..counts
        },
    }
}

// Stores a text that is not empty in a new slot, behind all others.
fn new_slot(words: &mut [u64], limits: TextLimits, counts: TextCounts, text: &[u8]) -> Stored
    requires { PoolHeld limits counts words.old × (counts.free ≡ 0) × (counts.slots < limits.slots) × (0 < length text.now) × (counts.bytes + length text.now ≤ limits.bytes) × (limits.slots ≤ 4294967296) }
    ensures { StoredTo limits counts words.old words.new text.now result }
{
    let made = counts.slots;
    let used = counts.bytes;
    let bytes = used + text.len();
    words[made] = bytes as u64;
    let at = limits.slots + limits.slots + used;
    words::pieces::write_bytes(words, at, text);
    let slots = made + 1;
    Stored {
        field: Some(TextSlot(made as u32)),
        counts: TextCounts {
            slots,
            bytes,
            ..counts
        },
    }
}

// Stores a text: an empty one takes no slot, another the last released slot, or else a new one.
pub fn store_text(words: &mut [u64], limits: TextLimits, counts: TextCounts, text: &[u8]) -> Stored
    requires { PoolHeld limits counts words.old × (counts_fit limits counts (slots_for text.now) 0 (length text.now) ≡ true) × (limits.slots ≤ 4294967296) }
    ensures { StoredTo limits counts words.old words.new text.now result }
{
    if text.is_empty() {
        return Stored {
            field: None,
            counts,
        };
    }
    if counts.free > 0 {
        return reuse_slot(words, limits, counts, text);
    }
    new_slot(words, limits, counts, text)
}

// Writes a text in place of the one a field has: one emptied keeps its slot.
pub fn replace_text(
    words: &mut [u64],
    limits: TextLimits,
    counts: TextCounts,
    slot: TextSlot,
    text: &[u8],
) -> TextCounts
    requires { Counted limits counts words.old × (slot.0 < counts.slots) × (counts_fit limits counts 0 (length_of words.old slot.0) (length text.now) ≡ true) }
    ensures { ReplacedTo limits counts words.old words.new slot.0 text.now result }
{
    let old = put_text(words, limits, counts, slot, text);
    let bytes = counts.bytes - old + text.len();
    TextCounts { bytes, ..counts }
}
