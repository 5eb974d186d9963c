// Attributes and namespace nodes: a new one at the end of its element's list, or another text in one that was found. The calls, behind their plans.
ghost use Rattle.std.specs.Prelude.{◌≡◌, ◌<◌};
ghost use Rattle.records.specs.Fields.{CharsFit};
ghost use Rattle.records.specs.Handles.{word_of};
ghost use Rattle.texts.specs.Pool.{stored, stored_slot};
ghost use Rattle.names.specs.Expanded.{expanded};
ghost use Rattle.names.specs.Table.{number_of, interned};
ghost use Rattle.model.specs.Calls.{set-attribute, declare-namespace, done, made, find_attribute, find_namespace};
ghost use Rattle.memory.specs.Decode.{slot_of};
ghost use Rattle.memory.specs.Lent.{document_in, Stepped, Performs};
ghost use Rattle.memory.specs.Performed.{Admitted};
ghost use Rattle.edits.specs.Pooled.{set_pool, set_names};
ghost use Rattle.edits.specs.Stores.{Storable, Internable};

use crate::append::append_node;
use crate::born::new_node;
use crate::interning::intern_name;
use crate::replace::do_replace_text;
use crate::storing::{store_text, store_two};
use layout::Arena;
use memory::lent::Lent;
use names::ExpandedName;
use records::{NodeData, NodeId};
use words::{NameId, TextSlot};

// The number of an attribute's name, and what the field of its value holds.
#[derive(Clone, Copy)]
struct StoredAttribute {
    name: NameId,
    value: Option<TextSlot>,
}

fn store_attribute(lent: &mut Lent<'_>, name: ExpandedName<'_>, value: &[u8]) -> StoredAttribute
    requires { Internable lent.old.document lent.old.words.now (expanded name) × Storable lent.old.document lent.old.words.now value.now }
    ensures step { Stepped lent.old lent.new (set_pool (set_names (document_in lent.old) (interned (document_in lent.old).names (expanded name.entry))) (stored (document_in lent.old).pool value.now)) }
    ensures name_value { (result.name.0 ≡ number_of (document_in lent.old).names (expanded name.entry)) × (result.name.0 < 4294967296) }
    ensures value_value { (slot_of result.value ≡ stored_slot (document_in lent.old).pool value.now) × CharsFit result.value }
{
    let interned = intern_name(lent, name);
    let stored = store_text(lent, value);
    StoredAttribute {
        name: interned,
        value: stored,
    }
}

pub fn append_attribute(lent: &mut Lent<'_>, element: NodeId, name: ExpandedName<'_>, value: &[u8])
    requires admitted { Admitted (set-attribute (word_of element) name.namespace.now name.local.now value.now) lent.old.document lent.old.words.now }
    requires local_value { find_attribute (document_in lent.old) (word_of element) (expanded name) ≡ None }
    ensures { Performs (set-attribute (word_of element) name.entry.namespace.now name.entry.local.now value.now) lent.old lent.new done }
{
    let stored = store_attribute(lent, name, value);
    let node = new_node(NodeData::Attr {
        name: stored.name,
        value: stored.value,
    });
    append_node(lent, Arena::Attributes, element, node);
}

pub fn replace_attribute(
    lent: &mut Lent<'_>,
    element: NodeId,
    found: NodeId,
    name: ExpandedName<'_>,
    value: &[u8],
)
    requires admitted { Admitted (set-attribute (word_of element) name.namespace.now name.local.now value.now) lent.old.document lent.old.words.now }
    requires local_value { find_attribute (document_in lent.old) (word_of element) (expanded name) ≡ Some (word_of found) }
    ensures { Performs (set-attribute (word_of element) name.entry.namespace.now name.entry.local.now value.now) lent.old lent.new done }
{
    do_replace_text(lent, found, value);
}

pub fn append_namespace(lent: &mut Lent<'_>, element: NodeId, prefix: &[u8], uri: &[u8]) -> NodeId
    requires admitted { Admitted (declare-namespace (word_of element) prefix.now uri.now) lent.old.document lent.old.words.now }
    requires prefix_value { find_namespace (document_in lent.old) (word_of element) prefix.now ≡ None }
    ensures { Performs (declare-namespace (word_of element) prefix.now uri.now) lent.old lent.new (made (word_of result)) }
{
    let stored = store_two(lent, prefix, uri);
    let node = new_node(NodeData::Namespace {
        prefix: stored.first,
        uri: stored.second,
    });
    append_node(lent, Arena::Namespaces, element, node)
}

pub fn replace_namespace(
    lent: &mut Lent<'_>,
    element: NodeId,
    found: NodeId,
    prefix: &[u8],
    uri: &[u8],
)
    requires admitted { Admitted (declare-namespace (word_of element) prefix.now uri.now) lent.old.document lent.old.words.now }
    requires prefix_value { find_namespace (document_in lent.old) (word_of element) prefix.now ≡ Some (word_of found) }
    ensures { Performs (declare-namespace (word_of element) prefix.now uri.now) lent.old lent.new (made (word_of found)) }
{
    do_replace_text(lent, found, uri);
}
