// What single words of a slot's record say of a live node, without the tests of a whole node.
ghost use Rattle.std.specs.Prelude.{◌≡◌, true, ◌<◌};
ghost use Rattle.model.specs.Kinds.{is_element};
ghost use Rattle.model.specs.Doc.{is_none, live_slot, kind_in, parent_in, range_in};
ghost use Rattle.layout.specs.Layout.{which_of};
ghost use Rattle.memory.specs.Decode.{block_of, handle_of};
ghost use Rattle.memory.specs.Words.{record_word, block_at};

use crate::view::View;
use layout::Arena;
use records::kind::ELEMENT;
use records::named::{ATTRIBUTES, CHILDREN, GENERATION, KIND, NAMESPACES, PARENT, RECORD_WORDS};
use records::{NodeId, Range};
use slots::region::RECORDS_AT;
use words::NodeSlot;

// Where the block in an arena stands in a record.
fn block_at(arena: Arena) -> usize
    ensures { result ≡ block_at (which_of arena) }
{
    match arena {
        Arena::Children => CHILDREN,
        Arena::Attributes => ATTRIBUTES,
        Arena::Namespaces => NAMESPACES,
    }
}

impl View<'_> {
    ghost use Rattle.memory.specs.View.{decoded};

    // A word of a slot's record.
    pub fn record_word(&self, slot: NodeSlot, word: usize) -> u64
        requires { (slot.0 < self.now.document.limits.nodes) × (word < 12) }
        ensures { result ≡ record_word self.now.document self.now.words.now slot.0 word }
    {
        self.words[self.document.limits.nodes * RECORDS_AT + slot.0 as usize * RECORD_WORDS + word]
    }

    // The block of the live node in a slot, none where its kind has no such list.
    pub fn live_block(&self, slot: NodeSlot, arena: Arena) -> Range
        requires { live_slot (decoded self.now) slot.0 ≡ true }
        ensures { block_of result ≡ range_in (decoded self.now) (which_of arena) slot.0 }
    {
        let at = block_at(arena);
        let start = self.record_word(slot, at);
        let len = self.record_word(slot, at + 1);
        Range {
            start: start as u32,
            len: len as u32,
        }
    }

    // Whether the live node in a slot is an element.
    pub fn is_element(&self, slot: NodeSlot) -> bool
        requires { live_slot (decoded self.now) slot.0 ≡ true }
        ensures { result ≡ is_element (kind_in (decoded self.now) slot.0) }
    {
        self.record_word(slot, KIND) == ELEMENT
    }

    pub fn has_no_parent(&self, slot: NodeSlot) -> bool
        requires { live_slot (decoded self.now) slot.0 ≡ true }
        ensures { result ≡ is_none (parent_in (decoded self.now) slot.0) }
    {
        self.record_word(slot, PARENT) == 0
    }

    // The parent of the live node in a slot.
    pub fn live_parent(&self, slot: NodeSlot) -> Option<NodeId>
        requires { live_slot (decoded self.now) slot.0 ≡ true }
        ensures { handle_of result ≡ parent_in (decoded self.now) slot.0 }
    {
        let word = self.record_word(slot, PARENT);
        let generation = self.record_word(slot, GENERATION);
        records::decode::parent_of(word, generation)
    }
}
