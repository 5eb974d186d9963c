// A slot is taken for a new node.
ghost use Rattle.std.specs.Prelude.{◌≡◌};
ghost use Rattle.records.specs.Handles.{word_of};
ghost use Rattle.model.specs.Edits.{next_handle, born};
ghost use Rattle.memory.specs.Decode.{kind_of};
ghost use Rattle.memory.specs.Lent.{document_in, Stepped};
ghost use Rattle.edits.specs.Slot.{CanBear, new_node, Newborn};

use layout::Document;
use layout::record::with_slots;
use memory::lent::Lent;
use records::{Node, NodeData, NodeId, Range};
use words::NodeSlot;

// The record after a node was made, and the node's handle: what a call that makes a node answers.
#[derive(Clone, Copy)]
pub struct NewNode {
    pub document: Document,
    pub id: NodeId,
}

// A node under no parent, with no child.
pub fn new_node(data: NodeData) -> Node
    ensures { result ≡ new_node «data» }
{
    Node {
        data,
        parent: None,
        children: Range { start: 0, len: 0 },
    }
}

// A new node, in no list yet. Its texts and its name are stored before.
pub fn born(lent: &mut Lent<'_>, node: Node) -> NodeId
    requires { CanBear lent.old.document lent.old.words.now × Newborn node }
    ensures step { Stepped lent.old lent.new (born (document_in lent.old) (kind_of node.«data») (document_in lent.old).pool (document_in lent.old).names) }
    ensures id_value { word_of result ≡ next_handle (document_in lent.old) }
{
    let taken = lent.take_slot();
    lent.put_node(NodeSlot(taken.id.index), node);
    lent.put_record(with_slots(lent.document, taken.made, taken.free));
    taken.id
}
