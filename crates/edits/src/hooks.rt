// A node is taken off its parent, and put under another.
ghost use Rattle.std.specs.Prelude.{◌≡◌};
ghost use Rattle.records.specs.Handles.{word_of};
ghost use Rattle.records.specs.Fields.{ParentFits};
ghost use Rattle.model.specs.Kinds as kinds;
ghost use Rattle.model.specs.Edits.{set_parent, unlink, unhook, attach};
ghost use Rattle.layout.specs.Layout.{which_of};
ghost use Rattle.memory.specs.Decode.{kind_of, handle_of, loaded_at, slots_part};
ghost use Rattle.memory.specs.Lent.{document_in, Stepped};
ghost use Rattle.edits.specs.Asked.{NodeHeld, Hooked, Attachable};

use layout::Arena;
use layout::record::outdated;
use memory::lent::Lent;
use records::{Node, NodeData, NodeId};
use words::NodeSlot;

// The node has another parent, or none; the order is not current any more.
pub fn set_parent(lent: &mut Lent<'_>, id: NodeId, parent: Option<NodeId>)
    requires { NodeHeld lent.old.document lent.old.words.now (word_of id) × ParentFits parent }
    ensures { Stepped lent.old lent.new (set_parent (document_in lent.old) (word_of id) (handle_of parent)) }
{
    lent.put_parent(NodeSlot(id.index), parent);
    lent.put_record(outdated(lent.document));
}

// The arena of a parent that a node of this kind stands in.
fn arena_of(data: NodeData) -> Arena
    ensures { which_of result ≡ kinds.which_of (kind_of «data») }
{
    match data {
        NodeData::Attr { .. } => Arena::Attributes,
        NodeData::Namespace { .. } => Arena::Namespaces,
        _ => Arena::Children,
    }
}

// The node's entry is dropped from its parent's block, if it has a parent.
fn unlink_node(lent: &mut Lent<'_>, id: NodeId, node: Node)
    requires { Hooked lent.old.document lent.old.words.now (word_of id) × (loaded_at lent.old.document.limits.nodes (slots_part lent.old.document lent.old.words.now) id.index ≡ Some node) }
    ensures { Stepped lent.old lent.new (unlink (document_in lent.old) (word_of id)) }
{
    if let Some(above) = node.parent {
        let arena = arena_of(node.data);
        lent.drop_entry(arena, NodeSlot(above.index), u64::from(id));
    }
}

pub fn unlink(lent: &mut Lent<'_>, id: NodeId)
    requires { Hooked lent.old.document lent.old.words.now (word_of id) }
    ensures { Stepped lent.old lent.new (unlink (document_in lent.old) (word_of id)) }
{
    if let Some(node) = lent.view().load(NodeSlot(id.index)) {
        unlink_node(lent, id, node);
    }
}

// The node is taken off its parent, if it has one.
pub fn unhook(lent: &mut Lent<'_>, id: NodeId)
    requires { Hooked lent.old.document lent.old.words.now (word_of id) }
    ensures { Stepped lent.old lent.new (unhook (document_in lent.old) (word_of id)) }
{
    unlink(lent, id);
    set_parent(lent, id, None);
}

// A node without a parent goes under one, at an index of its block.
pub fn attach(lent: &mut Lent<'_>, arena: Arena, parent: NodeId, at: usize, id: NodeId)
    requires { Attachable lent.old.document lent.old.words.now (which_of arena) (word_of parent) (word_of id) }
    ensures { Stepped lent.old lent.new (attach (document_in lent.old) (which_of arena) (word_of parent) at (word_of id)) }
{
    set_parent(lent, id, Some(parent));
    lent.insert_entry(arena, NodeSlot(parent.index), at, u64::from(id));
}
