// The calls that read a document.
ghost use Rattle.model.specs.Kinds.{children, attributes, namespaces};
ghost use Rattle.model.specs.Calls.{root-of, parent-of, root-element, is-element, order-key, children-of, attribute-nodes, namespace-nodes, kind-of};
ghost use Rattle.layout.specs.Layout.{which_of};
ghost use Rattle.reading.specs.Contract.{list_call};
ghost use Rattle.exports.specs.Contract.{ExportedRead, as_made, as_truth, as_node, as_key, as_list, as_kind};

use encoding::answer::refused;
use encoding::numbers::{give_key, give_kind, give_list, give_node, give_root, give_truth};
use encoding::record::lent_record;
use layout::Arena;
use model::Refusal;
use records::NodeId;

// Stays: the C interface has a function for each call; what they have in common is `lent_record` and what gives the answer.
// The Root's handle, in one word. Rules out another.
pub fn oxml_root(document: &[u64], memory: &[u64], answer: &mut [u64]) -> u64
    ensures { ExportedRead root-of 1 as_made document.now memory.now answer.old result answer.new }
{
    let Some(d) = lent_record(document, answer.len(), 1) else {
        return refused(Refusal::BadBuffers);
    };
    give_root(answer, reading::order::root(d, memory))
}

// 1 and the parent's handle, or 0 and 0. Rules out a parent for a stale handle.
pub fn oxml_parent(document: &[u64], memory: &[u64], id: u64, answer: &mut [u64]) -> u64
    ensures { ExportedRead (parent-of id) 2 as_node document.now memory.now answer.old result answer.new }
{
    let Some(d) = lent_record(document, answer.len(), 2) else {
        return refused(Refusal::BadBuffers);
    };
    give_node(answer, reading::node::parent(d, memory, NodeId::from(id)))
}

// 1 and the root element's handle, or 0 and 0. Rules out a child of the Root that is no element.
pub fn oxml_root_element(document: &[u64], memory: &[u64], answer: &mut [u64]) -> u64
    ensures { ExportedRead root-element 2 as_node document.now memory.now answer.old result answer.new }
{
    let Some(d) = lent_record(document, answer.len(), 2) else {
        return refused(Refusal::BadBuffers);
    };
    give_node(answer, reading::node::root_element(d, memory))
}

// 1 for an element, 0 for any other node. Rules out 1 for a stale handle.
pub fn oxml_is_element(document: &[u64], memory: &[u64], id: u64, answer: &mut [u64]) -> u64
    ensures { ExportedRead (is-element id) 1 as_truth document.now memory.now answer.old result answer.new }
{
    let Some(d) = lent_record(document, answer.len(), 1) else {
        return refused(Refusal::BadBuffers);
    };
    give_truth(
        answer,
        reading::node::is_element(d, memory, NodeId::from(id)),
    )
}

// 1 and the position in document order, or 0 and 0. Rules out an old position.
pub fn oxml_order_key(document: &[u64], memory: &[u64], id: u64, answer: &mut [u64]) -> u64
    ensures { ExportedRead (order-key id) 2 as_key document.now memory.now answer.old result answer.new }
{
    let Some(d) = lent_record(document, answer.len(), 2) else {
        return refused(Refusal::BadBuffers);
    };
    give_key(
        answer,
        reading::order::order_key(d, memory, NodeId::from(id)),
    )
}

// The block of a node's list in an arena, its start and length.
fn list(document: &[u64], memory: &[u64], id: u64, arena: Arena, answer: &mut [u64]) -> u64
    ensures { ExportedRead (list_call (which_of arena) id) 2 (as_list (which_of arena)) document.now memory.now answer.old result answer.new }
{
    let Some(d) = lent_record(document, answer.len(), 2) else {
        return refused(Refusal::BadBuffers);
    };
    give_list(
        answer,
        reading::list::list(d, memory, NodeId::from(id), arena),
    )
}

// The block of a node's children, its start and length; `oxml_entries` shows it in arena 0. Rules out another list's.
pub fn oxml_children(document: &[u64], memory: &[u64], id: u64, answer: &mut [u64]) -> u64
    ensures { ExportedRead (children-of id) 2 (as_list children) document.now memory.now answer.old result answer.new }
{
    list(document, memory, id, Arena::Children, answer)
}

// The block of its attributes, in arena 1. Rules out another list's.
pub fn oxml_attribute_nodes(document: &[u64], memory: &[u64], id: u64, answer: &mut [u64]) -> u64
    ensures { ExportedRead (attribute-nodes id) 2 (as_list attributes) document.now memory.now answer.old result answer.new }
{
    list(document, memory, id, Arena::Attributes, answer)
}

// The block of its namespaces, in arena 2. Rules out another list's.
pub fn oxml_namespace_nodes(document: &[u64], memory: &[u64], id: u64, answer: &mut [u64]) -> u64
    ensures { ExportedRead (namespace-nodes id) 2 (as_list namespaces) document.now memory.now answer.old result answer.new }
{
    list(document, memory, id, Arena::Namespaces, answer)
}

// What a node is, in 8 words: kind, name number, two texts, attributes' and namespaces' blocks. Rules out the kind of a stale handle.
pub fn oxml_kind(document: &[u64], memory: &[u64], id: u64, answer: &mut [u64]) -> u64
    ensures { ExportedRead (kind-of id) 8 as_kind document.now memory.now answer.old result answer.new }
{
    let Some(d) = lent_record(document, answer.len(), 8) else {
        return refused(Refusal::BadBuffers);
    };
    give_kind(answer, reading::text::kind(d, memory, NodeId::from(id)))
}
