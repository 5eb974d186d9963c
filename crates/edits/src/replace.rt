// A text in place of a node's own: in its slot, or, where the text was stored empty, in one that it gets. The order stays current.
ghost use Rattle.std.specs.Prelude.{◌≡◌};
ghost use Rattle.records.specs.Fields.{CharsFit};
ghost use Rattle.records.specs.Handles.{word_of};
ghost use Rattle.texts.specs.Pool.{replaced};
ghost use Rattle.model.specs.Kinds.{with_text};
ghost use Rattle.model.specs.Doc.{kind_at};
ghost use Rattle.model.specs.Edits.{set_kind};
ghost use Rattle.model.specs.Calls.{set-text, done, with_replaced, replaceable_at};
ghost use Rattle.memory.specs.Decode.{slot_of, loaded_at, slots_part};
ghost use Rattle.memory.specs.Lent.{document_in, Stepped, Performs};
ghost use Rattle.memory.specs.Performed.{Admitted};
ghost use Rattle.edits.specs.Asked.{NodeHeld};
ghost use Rattle.edits.specs.Pooled.{set_pool};
ghost use Rattle.edits.specs.Stores.{Storable};
ghost use Rattle.edits.specs.Replacing.{with_field, filled, Overwritable, Replaceable};

use crate::storing::store_text;
use layout::record::with_texts;
use memory::lent::Lent;
use memory::stored::text_field;
use records::{Node, NodeData, NodeId};
use words::{NodeSlot, TextSlot};

fn with_field(data: NodeData, field: Option<TextSlot>) -> NodeData
    ensures { result ≡ with_field «data» field }
{
    match data {
        NodeData::Attr { name, .. } => NodeData::Attr { name, value: field },
        NodeData::Text(_) => NodeData::Text(field),
        NodeData::Namespace { prefix, .. } => NodeData::Namespace { prefix, uri: field },
        _ => data,
    }
}

// The node with another text.
fn filled(node: Node, field: Option<TextSlot>) -> Node
    ensures { result ≡ filled node field }
{
    Node {
        data: with_field(node.data, field),
        ..node
    }
}

// The node's record gets another field.
fn put_field(lent: &mut Lent<'_>, id: NodeId, field: Option<TextSlot>)
    requires { NodeHeld lent.old.document lent.old.words.now (word_of id) × CharsFit field }
    ensures { Stepped lent.old lent.new (set_kind (document_in lent.old) (word_of id) (with_text (kind_at (document_in lent.old) (word_of id)) (slot_of field)) (document_in lent.old).pool) }
{
    let slot = NodeSlot(id.index);
    if let Some(node) = lent.view().load(slot) {
        lent.put_node(slot, filled(node, field));
    }
}

// A text stored empty gets a slot, unless the new one is empty too.
fn fill_field(lent: &mut Lent<'_>, id: NodeId, text: &[u8])
    requires { NodeHeld lent.old.document lent.old.words.now (word_of id) × Storable lent.old.document lent.old.words.now text.now }
    ensures { Stepped lent.old lent.new (with_replaced (document_in lent.old) (word_of id) None text.now) }
{
    let stored = store_text(lent, text);
    put_field(lent, id, stored);
}

// A text that has a slot keeps it.
fn replace_slot(lent: &mut Lent<'_>, slot: TextSlot, text: &[u8])
    requires { Overwritable lent.old.document lent.old.words.now slot.0 text.now }
    ensures { Stepped lent.old lent.new (set_pool (document_in lent.old) (replaced (document_in lent.old).pool (Some slot.0) text.now)) }
{
    let counts = lent.write_over(slot, text);
    lent.put_record(with_texts(lent.document, counts));
}

fn replace_in(lent: &mut Lent<'_>, id: NodeId, node: Node, text: &[u8])
    requires { Replaceable lent.old.document lent.old.words.now (word_of id) text.now × (loaded_at lent.old.document.limits.nodes (slots_part lent.old.document lent.old.words.now) id.index ≡ Some node) }
    ensures { Stepped lent.old lent.new (with_replaced (document_in lent.old) (word_of id) (replaceable_at (document_in lent.old) (word_of id)) text.now) }
{
    match text_field(node.data) {
        None => fill_field(lent, id, text),
        Some(slot) => replace_slot(lent, slot, text),
    }
}

// Of a kind that has no such text, nothing but the pool changes.
pub fn do_replace_text(lent: &mut Lent<'_>, id: NodeId, text: &[u8])
    requires { Replaceable lent.old.document lent.old.words.now (word_of id) text.now }
    ensures { Stepped lent.old lent.new (with_replaced (document_in lent.old) (word_of id) (replaceable_at (document_in lent.old) (word_of id)) text.now) }
{
    if let Some(node) = lent.view().load(NodeSlot(id.index)) {
        replace_in(lent, id, node, text);
    }
}

pub fn do_set_text(lent: &mut Lent<'_>, id: NodeId, text: &[u8])
    requires { Admitted (set-text (word_of id) text.now) lent.old.document lent.old.words.now }
    ensures { Performs (set-text (word_of id) text.now) lent.old lent.new done }
{
    do_replace_text(lent, id, text);
}
