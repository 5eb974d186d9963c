// A node is freed.
ghost use Rattle.memory.specs.Lent.{document_in, Stepped};
ghost use Rattle.freeing.specs.Freed.{free_slot, free_node};
ghost use Rattle.freeing.specs.Asked.{SlotFreeable, NodeFreeable};

use crate::release::push_texts;
use layout::record::with_slots;
use memory::lent::Lent;
use words::NodeSlot;

fn free_slot(lent: &mut Lent<'_>, slot: NodeSlot)
    requires { SlotFreeable (document_in lent.old) slot.0 }
    ensures { Stepped lent.old lent.new (free_slot (document_in lent.old) slot.0) }
{
    let free = lent.free_slot(slot);
    let made = lent.document.counts.slots;
    lent.put_record(with_slots(lent.document, made, free));
}

// The node's text slots go on the free text list before its own slot is free.
pub fn free_node(lent: &mut Lent<'_>, slot: NodeSlot)
    requires { NodeFreeable (document_in lent.old) slot.0 }
    ensures { Stepped lent.old lent.new (free_node (document_in lent.old) slot.0) }
{
    push_texts(lent, slot);
    free_slot(lent, slot);
}
