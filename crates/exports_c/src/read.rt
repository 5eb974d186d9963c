// The calls that read a document.
ghost use Rattle.model.specs.Kinds.{children, attributes, namespaces};
ghost use Rattle.model.specs.Calls.{root-of, parent-of, root-element, is-element, order-key, children-of, attribute-nodes, namespace-nodes, kind-of};
ghost use Rattle.exports.specs.Contract.{ExportedRead, as_made, as_truth, as_node, as_key, as_list, as_kind};

#[unsafe(no_mangle)]
pub extern "C" fn oxml_root(document: &[u64], memory: &[u64], answer: &mut [u64]) -> u64
    ensures { ExportedRead root-of 1 as_made document.now memory.now answer.old result answer.new }
{
    exports::read::oxml_root(document, memory, answer)
}

#[unsafe(no_mangle)]
pub extern "C" fn oxml_parent(document: &[u64], memory: &[u64], id: u64, answer: &mut [u64]) -> u64
    ensures { ExportedRead (parent-of id) 2 as_node document.now memory.now answer.old result answer.new }
{
    exports::read::oxml_parent(document, memory, id, answer)
}

#[unsafe(no_mangle)]
pub extern "C" fn oxml_root_element(document: &[u64], memory: &[u64], answer: &mut [u64]) -> u64
    ensures { ExportedRead root-element 2 as_node document.now memory.now answer.old result answer.new }
{
    exports::read::oxml_root_element(document, memory, answer)
}

#[unsafe(no_mangle)]
pub extern "C" fn oxml_is_element(
    document: &[u64],
    memory: &[u64],
    id: u64,
    answer: &mut [u64],
) -> u64
    ensures { ExportedRead (is-element id) 1 as_truth document.now memory.now answer.old result answer.new }
{
    exports::read::oxml_is_element(document, memory, id, answer)
}

#[unsafe(no_mangle)]
pub extern "C" fn oxml_order_key(
    document: &[u64],
    memory: &[u64],
    id: u64,
    answer: &mut [u64],
) -> u64
    ensures { ExportedRead (order-key id) 2 as_key document.now memory.now answer.old result answer.new }
{
    exports::read::oxml_order_key(document, memory, id, answer)
}

#[unsafe(no_mangle)]
pub extern "C" fn oxml_children(
    document: &[u64],
    memory: &[u64],
    id: u64,
    answer: &mut [u64],
) -> u64
    ensures { ExportedRead (children-of id) 2 (as_list children) document.now memory.now answer.old result answer.new }
{
    exports::read::oxml_children(document, memory, id, answer)
}

#[unsafe(no_mangle)]
pub extern "C" fn oxml_attribute_nodes(
    document: &[u64],
    memory: &[u64],
    id: u64,
    answer: &mut [u64],
) -> u64
    ensures { ExportedRead (attribute-nodes id) 2 (as_list attributes) document.now memory.now answer.old result answer.new }
{
    exports::read::oxml_attribute_nodes(document, memory, id, answer)
}

#[unsafe(no_mangle)]
pub extern "C" fn oxml_namespace_nodes(
    document: &[u64],
    memory: &[u64],
    id: u64,
    answer: &mut [u64],
) -> u64
    ensures { ExportedRead (namespace-nodes id) 2 (as_list namespaces) document.now memory.now answer.old result answer.new }
{
    exports::read::oxml_namespace_nodes(document, memory, id, answer)
}

#[unsafe(no_mangle)]
pub extern "C" fn oxml_kind(document: &[u64], memory: &[u64], id: u64, answer: &mut [u64]) -> u64
    ensures { ExportedRead (kind-of id) 8 as_kind document.now memory.now answer.old result answer.new }
{
    exports::read::oxml_kind(document, memory, id, answer)
}
