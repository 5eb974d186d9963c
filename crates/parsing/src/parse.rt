// What a line says. A line that is not exactly one of the format is no call.
use layout::Limits;
use lines::{cut, read_bytes, read_handle, read_number, read_optional};
use records::NodeId;

// Calls that edit a document, and lines that start one. Each holds its words in their order.
#[derive(Clone, Copy)]
pub enum Edit<'a> {
    AppendElement(NodeId, &'a [u8], &'a [u8]),
    AppendText(NodeId, &'a [u8]),
    AppendComment(NodeId, &'a [u8]),
    AppendPi(NodeId, &'a [u8], &'a [u8]),
    SetText(NodeId, &'a [u8]),
    SetAttribute(NodeId, &'a [u8], &'a [u8], &'a [u8]),
    RemoveAttribute(NodeId, &'a [u8], &'a [u8]),
    DeclareNamespace(NodeId, &'a [u8], &'a [u8]),
    Remove(NodeId),
    Detach(NodeId),
    Reparent(NodeId, NodeId),
    InsertAt(NodeId, usize, NodeId),
    DocumentOrder,
    Compact,
    Fresh,
    Limits(Limits),
}

// Lines that show what a document holds.
#[derive(Clone, Copy)]
pub enum Read {
    Root,
    RootElement,
    Nodes,
    Dump,
    Kind(NodeId),
    Parent(NodeId),
    Children(NodeId),
    Descendants(NodeId),
    IsElement(NodeId),
    AttributeNodes(NodeId),
    NamespaceNodes(NodeId),
    OrderKey(NodeId),
    Ranges(NodeId),
    Name(u64),
}

#[derive(Clone, Copy)]
pub enum Line<'a> {
    Edit(Edit<'a>),
    Read(Read),
}

// The longest line that can be a call.
pub const LONGEST: usize = 262144;

// The most words that a call has.
const MOST: usize = 9;

// A line of one word.
fn alone<'a>(call: &[u8]) -> Option<Line<'a>> {
    Some(match call {
        b"root" => Line::Read(Read::Root),
        b"root_element" => Line::Read(Read::RootElement),
        b"nodes" => Line::Read(Read::Nodes),
        b"dump" => Line::Read(Read::Dump),
        b"document_order" => Line::Edit(Edit::DocumentOrder),
        b"compact" => Line::Edit(Edit::Compact),
        b"fresh" => Line::Edit(Edit::Fresh),
        _ => return None,
    })
}

fn of_node<'a>(call: &[u8], id: NodeId) -> Option<Line<'a>> {
    Some(match call {
        b"kind" => Line::Read(Read::Kind(id)),
        b"parent" => Line::Read(Read::Parent(id)),
        b"children" => Line::Read(Read::Children(id)),
        b"descendants" => Line::Read(Read::Descendants(id)),
        b"is_element" => Line::Read(Read::IsElement(id)),
        b"attribute_nodes" => Line::Read(Read::AttributeNodes(id)),
        b"namespace_nodes" => Line::Read(Read::NamespaceNodes(id)),
        b"order_key" => Line::Read(Read::OrderKey(id)),
        b"ranges" => Line::Read(Read::Ranges(id)),
        b"remove" => Line::Edit(Edit::Remove(id)),
        b"detach" => Line::Edit(Edit::Detach(id)),
        _ => return None,
    })
}

fn two_words<'a>(call: &[u8], word: &[u8]) -> Option<Line<'a>> {
    match call {
        b"name" => Some(Line::Read(Read::Name(read_number(word)?))),
        _ => of_node(call, read_handle(word)?),
    }
}

fn with_text<'a>(call: &[u8], id: NodeId, text: &'a [u8]) -> Option<Edit<'a>> {
    match call {
        b"append_text" => Some(Edit::AppendText(id, text)),
        b"append_comment" => Some(Edit::AppendComment(id, text)),
        b"set_text" => Some(Edit::SetText(id, text)),
        _ => None,
    }
}

fn three_words<'a>(call: &[u8], id: NodeId, word: &[u8], texts: &'a mut [u8]) -> Option<Edit<'a>> {
    match call {
        b"reparent" => Some(Edit::Reparent(id, read_handle(word)?)),
        _ => with_text(call, id, read_bytes(word, texts)?.0),
    }
}

// A call whose first text may be absent.
fn with_name<'a>(call: &[u8], id: NodeId, first: &'a [u8], second: &'a [u8]) -> Option<Edit<'a>> {
    match call {
        b"append_element" => Some(Edit::AppendElement(id, first, second)),
        b"remove_attribute" => Some(Edit::RemoveAttribute(id, first, second)),
        b"declare_namespace" => Some(Edit::DeclareNamespace(id, first, second)),
        _ => None,
    }
}

fn four_words<'a>(
    call: &[u8],
    id: NodeId,
    first: &[u8],
    second: &[u8],
    texts: &'a mut [u8],
) -> Option<Edit<'a>> {
    match call {
        b"insert_at" => Some(Edit::InsertAt(id, read_index(first)?, read_handle(second)?)),
        b"append_pi" => {
            let (target, texts) = read_bytes(first, texts)?;
            Some(Edit::AppendPi(id, target, read_bytes(second, texts)?.0))
        }
        _ => {
            let (first, texts) = read_optional(first, texts)?;
            with_name(call, id, first, read_bytes(second, texts)?.0)
        }
    }
}

fn set_attribute<'a>(
    id: NodeId,
    namespace: &[u8],
    local: &[u8],
    value: &[u8],
    texts: &'a mut [u8],
) -> Option<Edit<'a>> {
    let (namespace, texts) = read_optional(namespace, texts)?;
    let (local, texts) = read_bytes(local, texts)?;
    let (value, _) = read_bytes(value, texts)?;
    Some(Edit::SetAttribute(id, namespace, local, value))
}

// An index or a count.
fn read_index(word: &[u8]) -> Option<usize> {
    Some(read_number(word)? as usize)
}

fn read_limits(words: &[&[u8]]) -> Option<Limits> {
    let [
        nodes,
        children,
        attributes,
        namespaces,
        texts,
        textbytes,
        names,
        namebytes,
    ] = words
    else {
        return None;
    };
    Some(Limits {
        nodes: read_index(nodes)?,
        children: read_index(children)?,
        attributes: read_index(attributes)?,
        namespaces: read_index(namespaces)?,
        texts: read_index(texts)?,
        textbytes: read_index(textbytes)?,
        names: read_index(names)?,
        namebytes: read_index(namebytes)?,
    })
}

// A call of three words or more.
fn many_words<'a>(call: &[u8], words: &[&[u8]], texts: &'a mut [u8]) -> Option<Edit<'a>> {
    match words {
        [id, word] => three_words(call, read_handle(id)?, word, texts),
        [id, first, second] => four_words(call, read_handle(id)?, first, second, texts),
        [id, namespace, local, value] if call == b"set_attribute".as_slice() => {
            set_attribute(read_handle(id)?, namespace, local, value, texts)
        }
        _ if call == b"limits".as_slice() => Some(Edit::Limits(read_limits(words)?)),
        _ => None,
    }
}

// The texts of a call are written to the lent bytes.
pub fn parse<'a>(line: &[u8], texts: &'a mut [u8]) -> Option<Line<'a>> {
    if line.len() > LONGEST {
        return None;
    }
    let mut words = [b"".as_slice(); MOST];
    let n = cut(line, &mut words)?;
    match &words[..n] {
        [call] => alone(call),
        [call, word] => two_words(call, word),
        [call, words @ ..] => Some(Line::Edit(many_words(call, words, texts)?)),
        [] => None,
    }
}
