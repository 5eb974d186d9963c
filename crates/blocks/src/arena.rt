// Reading the words of an arena: capacities, and the room that an insertion finds.
ghost use Rattle.std.specs.Prelude.{◌≡◌, cond, ℕ, ◌+◌, ◌≤◌, length, drop, eqb};
ghost use Rattle.blocks.specs.Arena.{arena_of, capacity_of, takes, has_room};
ghost use Rattle.blocks.specs.Answer.{has_room_after_removal};
ghost use Rattle.blocks.specs.Held.{Held};

use crate::Block;

// The words of an arena: an id for each of limit entries, then for each the capacity recorded for a block that starts there.
#[derive(Clone, Copy)]
pub struct ArenaWords<'a> {
    pub words: &'a [u64],
    pub limit: usize,
    pub ghost sized: { length words.now ≡ limit + limit },
}

impl ArenaWords<'_> {
    // How many ids the block may hold without moving. An empty block has no capacity: its start may be inside another block.
    pub fn capacity(self, block: Block) -> usize
        requires { block.start + block.len ≤ self.limit }
        ensures { result ≡ capacity_of (drop self.entry.limit self.entry.words.now) block }
    {
        if block.len == 0 {
            return 0;
        }
        block.len.max(self.words[self.limit + block.start] as usize)
    }

    // The record of the block once it has lost one of its ids: what it gave up is room for the next, but an emptied block keeps none.
    pub(crate) fn shrunk(self, block: Block) -> usize
        requires { block.start + block.len ≤ self.limit }
        ensures { result ≡ cond (eqb block.len 1) 0 (capacity_of (drop self.entry.limit self.entry.words.now) block) }
    {
        if block.len == 1 {
            return 0;
        }
        self.capacity(block)
    }

    // The arena entries that an insertion into the block takes: none while there is capacity, else those of the block that moves.
    pub fn entries_for(self, block: Block) -> usize
        requires { block.start + block.len ≤ self.limit }
        ensures { (used : ℕ) → result ≡ takes (arena_of self.entry.limit used self.entry.words.now) block }
    {
        if block.len < self.capacity(block) {
            return 0;
        }
        (2 * block.len).max(4)
    }

    // Whether the arena has the entries that an insertion into the block takes.
    #[tactic(auto, using(crate::proofs::Halves::held_fits))]
    pub fn room_for(self, used: usize, block: Block) -> bool
        requires { Held self.words.now self.limit used block.start block.len }
        ensures { result ≡ has_room (arena_of self.entry.limit used self.entry.words.now) block }
    {
        self.entries_for(block) <= self.limit - used
    }

    // The same for the block once id was taken out of it, asked before it is: what is left keeps its capacity, but an emptied block moves.
    #[tactic(auto, using(crate::proofs::Halves::held_fits))]
    pub fn room_after_drop(self, used: usize, block: Block, id: u64) -> bool
        requires { Held self.words.now self.limit used block.start block.len }
        ensures { result ≡ has_room_after_removal (arena_of self.entry.limit used self.entry.words.now) block id }
    {
        match words::position(self.words, block.start, block.len, id) {
            None => self.room_for(used, block),
            Some(_) => 1 < block.len || 4 <= self.limit - used,
        }
    }
}
