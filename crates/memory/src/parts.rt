// Parts of lent memory, shown or lent to a lower layer.
ghost use Rattle.std.specs.Prelude.{◌≡◌, true, ◌+◌, ◌≤◌, ◌<◌, length};
ghost use Rattle.words.specs.Parts.{part};
ghost use Rattle.words.specs.Ends.{length_of};
ghost use Rattle.blocks.specs.Arena.{arena_words, list_of};
ghost use Rattle.blocks.specs.Compact.{copied};
ghost use Rattle.slots.specs.Regions.{order_start, generation_at, put_order, clear_order};
ghost use Rattle.slots.specs.Slots.{taken, taken_words, CanTake, freed_words};
ghost use Rattle.texts.specs.Pool.{slots_for};
ghost use Rattle.texts.specs.Words.{counts_fit, Counted, PoolHeld, Reclaimable, StoredTo, ReplacedTo, PushedTo, ReclaimedTo};
ghost use Rattle.names.specs.Expanded.{expanded};
ghost use Rattle.names.specs.Table.{name_fits};
ghost use Rattle.names.specs.Words.{table_of, TableHeld, InternedTo};
ghost use Rattle.layout.specs.Layout.{which_of, entries_of};
ghost use Rattle.memory.specs.Decode.{block_of, slots_part, slots_made, slots_free, arena_part, arena_in, text_limits, text_counts, texts_part, name_limits, name_counts, names_part};
ghost use Rattle.memory.specs.Writing.{put_slots, put_arena, put_texts, put_names, ArenaCopied};

use crate::lent::Lent;
use crate::read::{block_in, free, made};
use crate::stored::{name_counts, name_limits, text_counts, text_limits};
use crate::view::View;
use blocks::arena::ArenaWords;
use layout::{Arena, arena_at, arena_limit, arena_range, names_range, slots_range, texts_range};
use names::ExpandedName;
use names::interning::Interned;
use records::Range;
use slots::region::ORDERS_AT;
use slots::slot::Taken;
use texts::TextCounts;
use texts::storing::Stored;
use words::{NodeSlot, TextSlot};

// ---- what is shown as a part of the memory, which outlives the view

impl<'a> View<'a> {
    // The order words of the slots made.
    pub fn order_words(&self) -> &'a [u64]
        ensures { result.now ≡ part (order_start self.now.document.limits.nodes) (slots_made self.now.document) self.now.words.now }
    {
        let start = self.document.limits.nodes * ORDERS_AT;
        let end = start + made(self.document);
        &self.words[start..end]
    }

    // The words of an arena.
    pub fn arena_words(&self, arena: Arena) -> ArenaWords<'a>
        ensures { (result.words.now ≡ arena_part self.now.document (which_of arena) self.now.words.now) × (result.limit ≡ entries_of self.now.document.limits (which_of arena)) }
    {
        let l = self.document.limits;
        ArenaWords {
            words: &self.words[arena_range(l, arena)],
            limit: arena_limit(l, arena),
        }
    }

    // The handles of a block that lies within the arena.
    pub fn block_words(&self, arena: Arena, block: Range) -> &'a [u64]
        requires { block.start + block.len ≤ entries_of self.now.document.limits (which_of arena) }
        ensures { result.now ≡ list_of (arena_in self.now.document (which_of arena) self.now.words.now) (block_of block) }
    {
        let start = arena_at(self.document.limits, arena) + block.start as usize;
        let end = start + block.len as usize;
        &self.words[start..end]
    }
}

// ---- what is lent to be written

impl Lent<'_> {
    ghost use Rattle.memory.specs.Lent.{Becomes};

    // The last freed slot, or a new one where none is free. The counts are its caller's to change.
    pub fn take_slot(&mut self) -> Taken
        requires { CanTake self.old.document.limits.nodes (slots_part self.old.document self.old.words.now) (slots_made self.old.document) (slots_free self.old.document) }
        ensures value { result ≡ taken self.old.document.limits.nodes (slots_part self.old.document self.old.words.now) (slots_made self.old.document) (slots_free self.old.document) }
        ensures lent_after { Becomes self.old self.new self.old.document (put_slots (taken_words self.old.document.limits.nodes (slots_part self.old.document self.old.words.now) (slots_made self.old.document) (slots_free self.old.document)) self.old.words.now) }
    {
        let d = self.document;
        let slots = &mut self.words[slots_range(d.limits)];
        slots::slot::alloc(slots, d.limits.nodes, made(d), free(d))
    }

    // A slot is pushed on the free stack; its length then.
    pub fn free_slot(&mut self, slot: NodeSlot) -> usize
        requires { (slot.0 < self.old.document.limits.nodes) × (self.old.document.counts.free < self.old.document.limits.nodes) × (generation_at self.old.document.limits.nodes (slots_part self.old.document self.old.words.now) slot.0 < 4294967296) }
        ensures value { result ≡ self.old.document.counts.free + 1 }
        ensures lent_after { Becomes self.old self.new self.old.document (put_slots (freed_words self.old.document.limits.nodes (slots_part self.old.document self.old.words.now) self.old.document.counts.free slot.0) self.old.words.now) }
    {
        let d = self.document;
        let slots = &mut self.words[slots_range(d.limits)];
        slots::slot::free_slot(slots, d.limits.nodes, d.counts.free, slot)
    }

    // Another order word of a slot.
    pub fn put_order(&mut self, slot: NodeSlot, key: u64)
        requires { slot.0 < self.old.document.limits.nodes }
        ensures { Becomes self.old self.new self.old.document (put_slots (put_order self.old.document.limits.nodes (slots_part self.old.document self.old.words.now) slot.0 key) self.old.words.now) }
    {
        let l = self.document.limits;
        slots::region::put_order(&mut self.words[slots_range(l)], l.nodes, slot, key);
    }

    // No slot made has a position.
    pub fn clear_order(&mut self)
        ensures { Becomes self.old self.new self.old.document (put_slots (clear_order self.old.document.limits.nodes (slots_part self.old.document self.old.words.now) (slots_made self.old.document)) self.old.words.now) }
    {
        let d = self.document;
        let slots = &mut self.words[slots_range(d.limits)];
        slots::region::clear_order(slots, d.limits.nodes, made(d));
    }

    // Copies a block of an arena behind the used entries of its copies.
    pub fn copy_block(&mut self, arena: Arena, used: usize, block: Range)
        requires { (block.start + block.len ≤ entries_of self.old.document.limits (which_of arena)) × (used + block.len ≤ entries_of self.old.document.limits (which_of arena)) }
        ensures copied { ArenaCopied self.old.document self.old.words.now self.new.words.now (which_of arena) used block.start block.len }
        ensures lent_after { Becomes self.old self.new self.old.document self.new.words.now }
    {
        let l = self.document.limits;
        let limit = arena_limit(l, arena);
        let words = &mut self.words[arena_range(l, arena)];
        blocks::compact::copy_block(words, limit, used, block_in(block));
    }

    // The copies in an arena, so many entries, replace the ids.
    pub fn replace_blocks(&mut self, arena: Arena, used: usize)
        requires { used ≤ entries_of self.old.document.limits (which_of arena) }
        ensures { Becomes self.old self.new self.old.document (put_arena self.old.document (which_of arena) (arena_words (copied (entries_of self.old.document.limits (which_of arena)) used (arena_part self.old.document (which_of arena) self.old.words.now))) self.old.words.now) }
    {
        let l = self.document.limits;
        let words = &mut self.words[arena_range(l, arena)];
        blocks::compact::replace_blocks(words, arena_limit(l, arena), used);
    }

    // A new text.
    pub fn write_text(&mut self, text: &[u8]) -> Stored
        requires { PoolHeld (text_limits self.old.document) (text_counts self.old.document) (texts_part self.old.document self.old.words.now) × (counts_fit (text_limits self.old.document) (text_counts self.old.document) (slots_for text.now) 0 (length text.now) ≡ true) }
        ensures stored_to { StoredTo (text_limits self.old.document) (text_counts self.old.document) (texts_part self.old.document self.old.words.now) (texts_part self.old.document self.new.words.now) text.now result }
        ensures lent_after { Becomes self.old self.new self.old.document (put_texts self.old.document (texts_part self.old.document self.new.words.now) self.old.words.now) }
    {
        let limits = text_limits(self.document);
        let counts = text_counts(self.document);
        let words = &mut self.words[texts_range(self.document.limits)];
        texts::storing::store_text(words, limits, counts, text)
    }

    // A text in place of another.
    pub fn write_over(&mut self, slot: TextSlot, text: &[u8]) -> TextCounts
        requires { Counted (text_limits self.old.document) (text_counts self.old.document) (texts_part self.old.document self.old.words.now) × (slot.0 < self.old.document.counts.texts) × (counts_fit (text_limits self.old.document) (text_counts self.old.document) 0 (length_of (texts_part self.old.document self.old.words.now) slot.0) (length text.now) ≡ true) }
        ensures replaced_to { ReplacedTo (text_limits self.old.document) (text_counts self.old.document) (texts_part self.old.document self.old.words.now) (texts_part self.old.document self.new.words.now) slot.0 text.now result }
        ensures lent_after { Becomes self.old self.new self.old.document (put_texts self.old.document (texts_part self.old.document self.new.words.now) self.old.words.now) }
    {
        let limits = text_limits(self.document);
        let counts = text_counts(self.document);
        let words = &mut self.words[texts_range(self.document.limits)];
        texts::storing::replace_text(words, limits, counts, slot, text)
    }

    // A text slot is pushed on the free text list.
    pub fn push_text(&mut self, slot: TextSlot) -> TextCounts
        requires { Counted (text_limits self.old.document) (text_counts self.old.document) (texts_part self.old.document self.old.words.now) × (self.old.document.counts.freetexts < self.old.document.limits.texts) }
        ensures pushed_to { PushedTo (text_limits self.old.document) (text_counts self.old.document) (texts_part self.old.document self.old.words.now) (texts_part self.old.document self.new.words.now) slot.0 result }
        ensures lent_after { Becomes self.old self.new self.old.document (put_texts self.old.document (texts_part self.old.document self.new.words.now) self.old.words.now) }
    {
        let limits = text_limits(self.document);
        let counts = text_counts(self.document);
        let words = &mut self.words[texts_range(self.document.limits)];
        releasing::release::push_slot(words, limits, counts, slot)
    }

    // The bytes of every text on the free text list are given back. Scratch holds the marks, and anything after.
    pub fn give_back(&mut self, scratch: &mut [u64]) -> TextCounts
        requires { Reclaimable (text_limits self.old.document) (text_counts self.old.document) (texts_part self.old.document self.old.words.now) × (self.old.document.counts.texts ≤ length scratch.old) }
        ensures reclaimed_to { ReclaimedTo (text_limits self.old.document) (text_counts self.old.document) (texts_part self.old.document self.old.words.now) (texts_part self.old.document self.new.words.now) result }
        ensures lent_after { Becomes self.old self.new self.old.document (put_texts self.old.document (texts_part self.old.document self.new.words.now) self.old.words.now) }
    {
        let limits = text_limits(self.document);
        let counts = text_counts(self.document);
        let words = &mut self.words[texts_range(self.document.limits)];
        let marks = self.document.counts.texts;
        releasing::release::reclaim(words, limits, counts, &mut scratch[0..marks])
    }

    // A name that may be there already.
    pub fn write_name(&mut self, name: ExpandedName<'_>) -> Interned
        requires { TableHeld (name_limits self.old.document) (name_counts self.old.document) (names_part self.old.document self.old.words.now) × (name_fits self.old.document.limits.names self.old.document.limits.namebytes (table_of (name_limits self.old.document) (name_counts self.old.document) (names_part self.old.document self.old.words.now)) (expanded name) ≡ true) }
        ensures interned_to { InternedTo (name_limits self.old.document) (name_counts self.old.document) (names_part self.old.document self.old.words.now) (names_part self.old.document self.new.words.now) (expanded name.entry) result }
        ensures lent_after { Becomes self.old self.new self.old.document (put_names self.old.document (names_part self.old.document self.new.words.now) self.old.words.now) }
    {
        let limits = name_limits(self.document);
        let counts = name_counts(self.document);
        let words = &mut self.words[names_range(self.document.limits)];
        names::interning::intern(words, limits, counts, name)
    }
}
