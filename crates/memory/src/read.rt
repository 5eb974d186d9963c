// What lent memory holds, slot by slot and entry by entry.
ghost use Rattle.std.specs.Prelude.{◌≡◌, true, ◌<◌, get_or};
ghost use Rattle.slots.specs.Regions.{generation_at, record_at, order_at, key_of};
ghost use Rattle.records.specs.Handles.{word_of};
ghost use Rattle.model.specs.Kinds.{attributes, namespaces};
ghost use Rattle.model.specs.Doc.{live_slot, resolves};
ghost use Rattle.layout.specs.Layout.{which_of, limits_of};
ghost use Rattle.memory.specs.Decode.{block_of, element_range, range_of, slots_part, slots_made, slots_free, arena_used, arena_in, loaded_at, resolved_in};

use crate::view::View;
use blocks::Block;
use layout::{Arena, Document, arena_at, arena_limit, slots_range};
use records::{Node, NodeData, NodeId, NodeRecord, Range};
use slots::region::Slots;
use words::NodeSlot;

// The slots made. A count above its limit reads as the limit.
pub fn made(d: Document) -> usize
    ensures { result ≡ slots_made d }
{
    d.counts.slots.min(d.limits.nodes)
}

// The length of the free stack.
pub fn free(d: Document) -> usize
    ensures { result ≡ slots_free d }
{
    d.counts.free.min(d.limits.nodes)
}

// The length of an arena.
pub fn arena_used(d: Document, arena: Arena) -> usize
    ensures { result ≡ arena_used d (which_of arena) }
{
    let limit = arena_limit(d.limits, arena);
    let c = d.counts;
    match arena {
        Arena::Children => c.children.min(limit),
        Arena::Attributes => c.attributes.min(limit),
        Arena::Namespaces => c.namespaces.min(limit),
    }
}

impl<'a> View<'a> {
    // The part of the slots.
    pub fn slots(&self) -> Slots<'a>
        ensures { (result.n ≡ self.now.document.limits.nodes) × (result.words.now ≡ slots_part self.now.document self.now.words.now) }
    {
        let l = self.document.limits;
        Slots {
            words: &self.words[slots_range(l)],
            n: l.nodes,
        }
    }
}

impl View<'_> {
    ghost use Rattle.memory.specs.View.{decoded};

    pub fn generation(&self, slot: NodeSlot) -> u64
        requires { slot.0 < self.now.document.limits.nodes }
        ensures { result ≡ generation_at self.now.document.limits.nodes (slots_part self.now.document self.now.words.now) slot.0 }
    {
        self.slots().generation(slot)
    }

    // The twelve words of a slot.
    pub fn record_words(&self, slot: NodeSlot) -> NodeRecord
        requires { slot.0 < self.now.document.limits.nodes }
        ensures { result ≡ record_at self.now.document.limits.nodes (slots_part self.now.document self.now.words.now) slot.0 }
    {
        self.slots().record(slot)
    }

    // The node in a slot, whether it is live or left there by one that was freed: none where its words or its generation are out of their fields.
    pub fn load(&self, slot: NodeSlot) -> Option<Node>
        requires { slot.0 < self.now.document.limits.nodes }
        ensures { result ≡ loaded_at self.now.document.limits.nodes (slots_part self.now.document self.now.words.now) slot.0 }
    {
        if self.generation(slot) < 4294967296 {
            records::decode::node_of(self.record_words(slot))
        } else {
            None
        }
    }

    // The node that a handle resolves to, for every handle.
    pub fn resolve(&self, id: NodeId) -> Option<Node>
        ensures { result ≡ resolved_in self.now.document self.now.words.now id }
    {
        self.slots().resolve(made(self.document), id)
    }

    // Whether a slot holds a live node: its generation is even and of 32 bits, and its words are a node.
    pub fn is_live(&self, slot: NodeSlot) -> bool
        requires { slot.0 < slots_made self.now.document }
        ensures { result ≡ live_slot (decoded self.now) slot.0 }
    {
        let word = self.generation(slot);
        if word >= 4294967296 {
            return false;
        }
        if word % 2 != 0 {
            return false;
        }
        records::decode::is_node(self.record_words(slot))
    }

    // Whether a handle resolves, for every handle. No node is built: what is shown of it is read behind this test, word by word.
    pub fn resolves(&self, id: NodeId) -> bool
        ensures { result ≡ resolves (decoded self.now) (word_of id) }
    {
        if id.index as usize >= made(self.document) {
            return false;
        }
        let slot = NodeSlot(id.index);
        if self.generation(slot) != id.generation as u64 {
            return false;
        }
        self.is_live(slot)
    }

    // An entry of an arena: the word of a handle.
    pub fn entry(&self, arena: Arena, at: usize) -> u64
        requires { at < (limits_of self.now.document.limits).entries (which_of arena) }
        ensures { result ≡ get_or (arena_in self.now.document (which_of arena) self.now.words.now).ids at 0 }
    {
        let start = arena_at(self.document.limits, arena);
        self.words[start + at]
    }

    // A slot's position in document order, as its order word says.
    pub fn order_key(&self, slot: NodeSlot) -> Option<u32>
        requires { slot.0 < self.now.document.limits.nodes }
        ensures { result ≡ key_of (order_at self.now.document.limits.nodes (slots_part self.now.document self.now.words.now) slot.0) }
    {
        self.slots().order_key(slot)
    }
}

// Only elements have attributes and namespaces.
fn attributes_of(data: NodeData) -> Range
    ensures { block_of result ≡ element_range attributes «data» }
{
    match data {
        NodeData::Element { attributes, .. } => attributes,
        _ => Range { start: 0, len: 0 },
    }
}

fn namespaces_of(data: NodeData) -> Range
    ensures { block_of result ≡ element_range namespaces «data» }
{
    match data {
        NodeData::Element { namespaces, .. } => namespaces,
        _ => Range { start: 0, len: 0 },
    }
}

// A range as the block editor counts.
// Stays: `Range` and `Block` are of two crates that don't know each other, and `From` belongs in one of the two.
pub fn block_in(range: Range) -> Block
    ensures { result ≡ block_of range }
{
    Block {
        start: range.start as usize,
        len: range.len as usize,
    }
}

// A node's block in an arena.
pub fn range_of(node: Node, arena: Arena) -> Range
    ensures { block_of result ≡ range_of (which_of arena) node }
{
    match arena {
        Arena::Children => node.children,
        Arena::Attributes => attributes_of(node.data),
        Arena::Namespaces => namespaces_of(node.data),
    }
}
