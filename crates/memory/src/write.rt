// Writing steps over lent memory. Each cuts out its own part and leaves every other word as it was.
ghost use Rattle.std.specs.Prelude.{◌≡◌, ◌<◌};
ghost use Rattle.layout.specs.Layout.{which_of};
ghost use Rattle.memory.specs.Writing.{put_words, with_range, put_node, put_range, put_parent};

use crate::lent::Lent;
use layout::{Arena, slots_range};
use records::{Node, NodeId, NodeRecord, Range, Span};
use words::NodeSlot;

// The node record is lent to the step that patches the range of the arena.
fn patch_range(words: &mut NodeRecord, arena: Arena, range: Span)
    ensures { words.new ≡ with_range (which_of arena) words.old range }
{
    match arena {
        Arena::Children => records::patch::patch_children(words, range),
        Arena::Attributes => records::patch::patch_attributes(words, range),
        Arena::Namespaces => records::patch::patch_namespaces(words, range),
    }
}

impl Lent<'_> {
    ghost use Rattle.memory.specs.Lent.{Becomes};

    // The twelve words of a slot.
    fn put_words(&mut self, slot: NodeSlot, r: NodeRecord)
        requires { slot.0 < self.old.document.limits.nodes }
        ensures { Becomes self.old self.new self.old.document (put_words self.old.document self.old.words.now slot.0 r) }
    {
        let l = self.document.limits;
        slots::region::store_record(&mut self.words[slots_range(l)], l.nodes, slot, r);
    }

    // Another node in a slot.
    pub fn put_node(&mut self, slot: NodeSlot, node: Node)
        requires { slot.0 < self.old.document.limits.nodes }
        ensures { Becomes self.old self.new self.old.document (put_node self.old.document self.old.words.now slot.0 node) }
    {
        let r = records::encode::record_of(node);
        self.put_words(slot, r);
    }

    // Another range of the node in a slot.
    pub fn put_range(&mut self, slot: NodeSlot, arena: Arena, range: Range)
        requires { slot.0 < self.old.document.limits.nodes }
        ensures { Becomes self.old self.new self.old.document (put_range self.old.document self.old.words.now slot.0 (which_of arena) range) }
    {
        let mut words = self.view().record_words(slot);
        patch_range(&mut words, arena, Span::from(range));
        self.put_words(slot, words);
    }

    // Another parent of the node in a slot, or none.
    pub fn put_parent(&mut self, slot: NodeSlot, parent: Option<NodeId>)
        requires { slot.0 < self.old.document.limits.nodes }
        ensures { Becomes self.old self.new self.old.document (put_parent self.old.document self.old.words.now slot.0 parent) }
    {
        let words = self.view().record_words(slot);
        self.put_words(slot, records::patch::with_parent(words, parent));
    }
}
