// From a node to its words.
ghost use Rattle.std.specs.Prelude.{◌≡◌};
ghost use Rattle.records.specs.Records.{chars_word, parent_word, parent_generation, span_of, no_span, kind_word, name_word, first_text, second_text, attributes_span, namespaces_span, record_of};

use crate::kind::{ATTR, COMMENT, ELEMENT, NAMESPACE, PROCESSING_INSTRUCTION, ROOT, TEXT};
use crate::{Node, NodeData, NodeId, NodeRecord, Range, Span};
use words::TextSlot;

pub fn chars_word(text: Option<TextSlot>) -> u64
    ensures { result ≡ chars_word text }
{
    match text {
        None => 0,
        Some(slot) => slot.0 as u64 + 1,
    }
}

pub fn parent_word(parent: Option<NodeId>) -> u64
    ensures { result ≡ parent_word parent }
{
    match parent {
        None => 0,
        Some(id) => id.index as u64 + 1,
    }
}

pub fn parent_generation(parent: Option<NodeId>) -> u64
    ensures { result ≡ parent_generation parent }
{
    match parent {
        None => 0,
        Some(id) => id.generation as u64,
    }
}

// A range's two words.
impl From<Range> for Span {
    ghost from_gives = { λ range span. span ≡ span_of range };

    fn from(range: Range) -> Span {
        Span {
            start: range.start as u64,
            len: range.len as u64,
        }
    }
}

fn no_span() -> Span
    ensures { result ≡ no_span }
{
    Span { start: 0, len: 0 }
}

pub fn kind_word(data: NodeData) -> u64
    ensures { result ≡ kind_word «data» }
{
    match data {
        NodeData::Root => ROOT,
        NodeData::Element { .. } => ELEMENT,
        NodeData::Attr { .. } => ATTR,
        NodeData::Text(_) => TEXT,
        NodeData::Comment(_) => COMMENT,
        NodeData::Namespace { .. } => NAMESPACE,
        NodeData::ProcessingInstruction { .. } => PROCESSING_INSTRUCTION,
    }
}

pub fn name_word(data: NodeData) -> u64
    ensures { result ≡ name_word «data» }
{
    match data {
        NodeData::Element { name, .. } | NodeData::Attr { name, .. } => name.0 as u64,
        _ => 0,
    }
}

// A node's texts, in the order in which they are stored and released.
pub fn first_text(data: NodeData) -> Option<TextSlot>
    ensures { result ≡ first_text «data» }
{
    match data {
        NodeData::Root | NodeData::Element { .. } => None,
        NodeData::Attr { value: text, .. }
        | NodeData::Text(text)
        | NodeData::Comment(text)
        | NodeData::Namespace { prefix: text, .. }
        | NodeData::ProcessingInstruction { target: text, .. } => text,
    }
}

pub fn second_text(data: NodeData) -> Option<TextSlot>
    ensures { result ≡ second_text «data» }
{
    match data {
        NodeData::Namespace { uri: text, .. }
        | NodeData::ProcessingInstruction { data: text, .. } => text,
        _ => None,
    }
}

pub fn attributes_span(data: NodeData) -> Span
    ensures { result ≡ attributes_span «data» }
{
    match data {
        NodeData::Element { attributes, .. } => Span::from(attributes),
        _ => no_span(),
    }
}

pub fn namespaces_span(data: NodeData) -> Span
    ensures { result ≡ namespaces_span «data» }
{
    match data {
        NodeData::Element { namespaces, .. } => Span::from(namespaces),
        _ => no_span(),
    }
}

// The words of a node, by name.
#[tactic(auto, unfolding(crate::specs::Records::record_of))]
pub fn record_of(node: Node) -> NodeRecord
    ensures { result ≡ record_of node }
{
    let data = node.data;
    NodeRecord {
        kind: kind_word(data),
        name: name_word(data),
        first: chars_word(first_text(data)),
        second: chars_word(second_text(data)),
        parent: parent_word(node.parent),
        generation: parent_generation(node.parent),
        children: Span::from(node.children),
        attributes: attributes_span(data),
        namespaces: namespaces_span(data),
    }
}
