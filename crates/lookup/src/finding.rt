// The attribute with a name, and the namespace node with a prefix: the first in the element's list. Pairs and prefixes are compared by
// their bytes, since no rule says that the name table holds a pair once.
ghost use Rattle.std.specs.Prelude.{◌≡◌, true};
ghost use Rattle.records.specs.Handles.{word_of};
ghost use Rattle.names.specs.Expanded.{expanded};
ghost use Rattle.names.specs.Table.{same_name};
ghost use Rattle.model.specs.Kinds.{root};
ghost use Rattle.model.specs.Doc.{resolves, kind_at, pair_at, or_else, list_at};
ghost use Rattle.model.specs.Calls.{has_name, find_attribute, has_prefix, find_namespace};
ghost use Rattle.layout.specs.Layout.{which_of};
ghost use Rattle.memory.specs.Decode.{kind_of, kind_loaded, handle_of};
ghost use Rattle.memory.specs.View.{decoded};

use crate::stored::{name_bytes, text_bytes};
use layout::Arena;
use memory::read::{made, range_of};
use memory::view::{Undamaged, View};
use names::{ExpandedName, NamePart};
use records::{Node, NodeData, NodeId};
use words::pieces::same_bytes;
use words::{NameId, NodeSlot};

fn loaded_data(node: Option<Node>) -> NodeData
    ensures { kind_of result ≡ or_else root (kind_loaded node) }
{
    node.map_or(NodeData::Root, |found| found.data)
}

// What the node in a handle's slot is.
fn data_of(view: &View<'_>, word: u64) -> NodeData
    ensures { kind_of result ≡ kind_at (decoded view.now) word }
{
    let index = word % 4294967296;
    if index < made(view.document) as u64 {
        return loaded_data(view.load(NodeSlot(index as u32)));
    }
    NodeData::Root
}

// Whether the pair of a number is this one.
fn same_pair(doc: &Undamaged<'_>, number: NameId, name: ExpandedName<'_>) -> bool
    ensures { result ≡ same_name (expanded name.entry) (pair_at (decoded doc.now.view) number.0) }
{
    same_bytes(name_bytes(doc, number, NamePart::Namespace), name.namespace)
        && same_bytes(name_bytes(doc, number, NamePart::Local), name.local)
}

fn has_name(doc: &Undamaged<'_>, word: u64, name: ExpandedName<'_>) -> bool
    ensures { result ≡ has_name (decoded doc.now.view) (expanded name.entry) word }
{
    match data_of(&doc.view, word) {
        NodeData::Attr { name: own, .. } => same_pair(doc, own, name),
        _ => false,
    }
}

fn has_prefix(doc: &Undamaged<'_>, word: u64, prefix: &[u8]) -> bool
    ensures { result ≡ has_prefix (decoded doc.now.view) prefix.now word }
{
    match data_of(&doc.view, word) {
        NodeData::Namespace { prefix: own, .. } => same_bytes(text_bytes(doc, own), prefix),
        _ => false,
    }
}

// The handles of a list of a node that resolves.
fn listed<'a>(doc: &Undamaged<'a>, element: NodeId, arena: Arena) -> &'a [u64]
    requires { resolves (decoded doc.now.view) (word_of element) ≡ true }
    ensures { result.now ≡ list_at (decoded doc.now.view) (which_of arena) (word_of element) }
{
    match doc.view.resolve(element) {
        Some(node) => doc.view.block_words(arena, range_of(node, arena)),
        None => &[],
    }
}

pub fn find_attribute(
    doc: &Undamaged<'_>,
    element: NodeId,
    name: ExpandedName<'_>,
) -> Option<NodeId>
    requires { resolves (decoded doc.now.view) (word_of element) ≡ true }
    ensures { handle_of result ≡ find_attribute (decoded doc.now.view) (word_of element) (expanded name.entry) }
{
    listed(doc, element, Arena::Attributes)
        .iter()
        .copied()
        .find(|&word| has_name(doc, word, name))
        .map(NodeId::from)
}

pub fn find_namespace(doc: &Undamaged<'_>, element: NodeId, prefix: &[u8]) -> Option<NodeId>
    requires { resolves (decoded doc.now.view) (word_of element) ≡ true }
    ensures { handle_of result ≡ find_namespace (decoded doc.now.view) (word_of element) prefix.now }
{
    listed(doc, element, Arena::Namespaces)
        .iter()
        .copied()
        .find(|&word| has_prefix(doc, word, prefix))
        .map(NodeId::from)
}
