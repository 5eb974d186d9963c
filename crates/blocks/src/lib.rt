// The block editor: blocks of ids in one arena, each with room to grow. It sees no node.
// An arena is one slice of words: an id for each of limit entries, then for each the capacity recorded for a block that starts there, 0 for none.
#![tactic(auto)]

pub mod arena;
pub mod compact;
pub mod marks;

ghost use Rattle.std.specs.Prelude.{◌≡◌, ℕ, ◌+◌, ◌≤◌, ◌<◌, length, set, replicate};
ghost use Rattle.words.specs.Parts.{part, put};
ghost use Rattle.words.specs.Lists.{insert_at, remove_at};
ghost use Rattle.blocks.specs.Arena.{arena_of, arena_words, removed};
ghost use Rattle.blocks.specs.Answer.{insert_answer, insert_words};
ghost use Rattle.blocks.specs.Held.{Held};

use crate::arena::ArenaWords;

// Where a block of ids starts, and how many it has: first (0, 0).
#[derive(Clone, Copy, PartialEq, Eq, Debug)]
pub struct Block {
    pub start: usize,
    pub len: usize,
}

// Where the block is after an insertion, the arena's length then, and the index at which the id stands.
#[derive(Clone, Copy, PartialEq, Eq, Debug)]
pub struct Inserted {
    pub block: Block,
    pub used: usize,
    pub index: usize,
}

// Puts id at index at of the block; the ids from there on move up by one.
fn insert_in_place(ids: &mut [u64], block: Block, at: usize, id: u64)
    requires { (at ≤ block.len) × (block.start + block.len < length ids.old) }
    ensures { ids.new ≡ put block.start (insert_at at id (part block.start block.len ids.old)) ids.old }
{
    let split = block.start + at;
    words::copy(ids, split, block.len - at, split + 1);
    ids[split] = id;
}

// Stays: the writers take the words and the limit. Whoever lends words to a struct that writes knows only their length afterwards, unless each function says
// that the struct keeps the reference.
// Copies the block to the arena's end with id put at index at, erases the record at the old start and those of the entries that come into use,
// and records the new capacity.
fn move_block_with(
    arena: &mut [u64],
    limit: usize,
    used: usize,
    block: Block,
    at: usize,
    id: u64,
    cap: usize,
)
    requires arena_len { length arena.old ≡ limit + limit }
    requires at_le_len { (at ≤ block.len) × (block.start + block.len ≤ used) × (block.len < cap) × (used + cap ≤ limit) }
    ensures { arena.new ≡ set (put (limit + used) (replicate cap 0) (set (put used (insert_at at id (part block.start block.len arena.old)) arena.old) (limit + block.start) 0)) (limit + used) cap }
{
    words::copy(arena, block.start, block.len, used);
    let moved = Block {
        start: used,
        ..block
    };
    insert_in_place(arena, moved, at, id);
    arena[limit + block.start] = 0;
    words::fill(arena, limit + used, cap, 0);
    arena[limit + used] = cap as u64;
}

// Puts id at index at of the block, or at its end where at is past that: in place where there is capacity, else the block moves. None where the
// arena has no room.
#[tactic(auto, using(crate::proofs::Halves::held_fits))]
pub fn insert_into(
    arena: &mut [u64],
    limit: usize,
    used: usize,
    block: Block,
    at: usize,
    id: u64,
) -> Option<Inserted>
    requires { Held arena.old limit used block.start block.len }
    ensures value { result ≡ insert_answer (arena_of limit used arena.old) block at id }
    ensures arena_after { arena.new ≡ insert_words arena.old (arena_of limit used arena.old) block at id }
{
    let words = ArenaWords {
        words: arena,
        limit,
    };
    let more = words.entries_for(block);
    if limit - used < more {
        return None;
    }
    let index = at.min(block.len);
    let len = block.len + 1;
    if more == 0 {
        insert_in_place(arena, block, index, id);
        let block = Block { len, ..block };
        return Some(Inserted { block, used, index });
    }
    move_block_with(arena, limit, used, block, index, id, more);
    Some(Inserted {
        block: Block { start: used, len },
        used: used + more,
        index,
    })
}

// Takes what stands at index at out of the block; the ids after it move down by one.
fn remove_in_place(ids: &mut [u64], block: Block, at: usize)
    requires { (at < block.len) × (block.start + block.len ≤ length ids.old) }
    ensures { ids.new ≡ put block.start (remove_at at (part block.start block.len ids.old)) ids.old }
{
    let hole = block.start + at;
    words::copy(ids, hole + 1, block.len - at - 1, hole);
}

// Takes id out of the block, if it is there, and returns the block's length then. The block's start stays.
#[tactic(auto, using(crate::proofs::Halves::held_fits))]
pub fn drop_from(arena: &mut [u64], limit: usize, block: Block, id: u64) -> usize
    requires { Held arena.old limit limit block.start block.len }
    ensures by_index { (used : ℕ) → result ≡ (removed (arena_of limit used arena.old) block id).block.len }
    ensures by_index_2 { (used : ℕ) → arena.new ≡ arena_words (removed (arena_of limit used arena.old) block id).arena }
{
    let Some(at) = words::position(arena, block.start, block.len, id) else {
        return block.len;
    };
    let words = ArenaWords {
        words: arena,
        limit,
    };
    let cap = words.shrunk(block);
    remove_in_place(arena, block, at);
    arena[limit + block.start] = cap as u64;
    block.len - 1
}
