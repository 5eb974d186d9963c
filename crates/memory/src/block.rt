// Edits of a node's block: the arena's words, and the node's range.
ghost use Rattle.std.specs.Prelude.{◌≡◌, ◌<◌};
ghost use Rattle.blocks.specs.Arena.{arena_words, block, removed};
ghost use Rattle.blocks.specs.Answer.{insert_answer, insert_words};
ghost use Rattle.blocks.specs.Held.{Held};
ghost use Rattle.layout.specs.Layout.{which_of, limits_of};
ghost use Rattle.memory.specs.Decode.{block_of, range_loaded, loaded_at, slots_part, arena_part, arena_used, arena_in};
ghost use Rattle.memory.specs.Writing.{put_arena};
ghost use Rattle.memory.specs.Entries.{BlockHeld, BlockOpen, insertion, removal, put_block};
ghost use Rattle.layout.specs.Record.{outdated, with_used};

use crate::lent::Lent;
use crate::read::{arena_used, block_in, range_of};
use crate::view::View;
use blocks::Inserted;
use layout::record::{outdated, with_used};
use layout::{Arena, arena_limit, arena_range};
use records::Range;
use words::NodeSlot;

impl View<'_> {
    // The block of the node in a slot, live or freed.
    pub fn block_of(&self, owner: NodeSlot, arena: Arena) -> Range
        requires { owner.0 < self.now.document.limits.nodes }
        ensures { block_of result ≡ range_loaded (which_of arena) (loaded_at self.now.document.limits.nodes (slots_part self.now.document self.now.words.now) owner.0) }
    {
        let loaded = self.load(owner);
        match loaded {
            Some(node) => range_of(node, arena),
            None => Range { start: 0, len: 0 },
        }
    }
}

impl Lent<'_> {
    ghost use Rattle.memory.specs.Lent.{Becomes};

    // An insertion into a block of an arena. None where the arena has no room.
    pub fn insert_block(
        &mut self,
        arena: Arena,
        block: Range,
        at: usize,
        id: u64,
    ) -> Option<Inserted>
        requires { Held (arena_part self.old.document (which_of arena) self.old.words.now) ((limits_of self.old.document.limits).entries (which_of arena)) (arena_used self.old.document (which_of arena)) block.start block.len }
        ensures value { result ≡ insert_answer (arena_in self.old.document (which_of arena) self.old.words.now) (block_of block) at id }
        ensures lent_after { Becomes self.old self.new self.old.document (put_arena self.old.document (which_of arena) (insert_words (arena_part self.old.document (which_of arena) self.old.words.now) (arena_in self.old.document (which_of arena) self.old.words.now) (block_of block) at id) self.old.words.now) }
    {
        let d = self.document;
        let limit = arena_limit(d.limits, arena);
        let used = arena_used(d, arena);
        let words = &mut self.words[arena_range(d.limits, arena)];
        blocks::insert_into(words, limit, used, block_in(block), at, id)
    }

    // A removal from a block of an arena, with the block's length then.
    pub fn drop_block(&mut self, arena: Arena, block: Range, id: u64) -> usize
        requires { Held (arena_part self.old.document (which_of arena) self.old.words.now) ((limits_of self.old.document.limits).entries (which_of arena)) (arena_used self.old.document (which_of arena)) block.start block.len }
        ensures value { result ≡ (removed (arena_in self.old.document (which_of arena) self.old.words.now) (block_of block) id).block.len }
        ensures lent_after { Becomes self.old self.new self.old.document (put_arena self.old.document (which_of arena) (arena_words (removed (arena_in self.old.document (which_of arena) self.old.words.now) (block_of block) id).arena) self.old.words.now) }
    {
        let l = self.document.limits;
        let limit = arena_limit(l, arena);
        blocks::drop_from(
            &mut self.words[arena_range(l, arena)],
            limit,
            block_in(block),
            id,
        )
    }

    // Puts id at index at of the owner's block, or at its end where at is past that. That there is room was asked before.
    pub fn insert_entry(&mut self, arena: Arena, owner: NodeSlot, at: usize, id: u64)
        requires { BlockOpen self.old.document self.old.words.now (which_of arena) owner.0 }
        ensures { Becomes self.old self.new (with_used self.old.document (which_of arena) (insertion self.old.document self.old.words.now (which_of arena) owner.0 at id).arena.used) (put_block self.old.document self.old.words.now (which_of arena) owner.0 (insertion self.old.document self.old.words.now (which_of arena) owner.0 at id)) }
    {
        let block = self.view().block_of(owner, arena);
        let inserted = self.insert_block(arena, block, at, id).unwrap();
        let range = Range {
            start: inserted.block.start as u32,
            len: inserted.block.len as u32,
        };
        self.put_range(owner, arena, range);
        self.put_record(with_used(self.document, arena, inserted.used));
    }

    // Takes id out of the owner's block, if it is there.
    pub fn drop_entry(&mut self, arena: Arena, owner: NodeSlot, id: u64)
        requires { BlockHeld self.old.document self.old.words.now (which_of arena) owner.0 }
        ensures { Becomes self.old self.new (outdated self.old.document) (put_block self.old.document self.old.words.now (which_of arena) owner.0 (removal self.old.document self.old.words.now (which_of arena) owner.0 id)) }
    {
        let block = self.view().block_of(owner, arena);
        let len = self.drop_block(arena, block, id);
        let range = Range {
            start: block.start,
            len: len as u32,
        };
        self.put_range(owner, arena, range);
        self.put_record(outdated(self.document));
    }
}
