// Handles and node records: the twelve words of a slot by name, and the node that they are. No memory is known here.
#![tactic(auto)]

pub mod decode;
pub mod encode;
pub mod handle;
pub mod kind;
pub mod named;
pub mod patch;

use words::{NameId, TextSlot};

// A handle: a slot and the generation that it was made with.
#[derive(Clone, Copy, Debug, PartialEq, Eq)]
pub struct NodeId {
    pub index: u32,
    pub generation: u32,
}

// A block of an arena.
#[derive(Clone, Copy, Debug, PartialEq, Eq)]
pub struct Range {
    pub start: u32,
    pub len: u32,
}

#[derive(Clone, Copy, Debug, PartialEq, Eq)]
pub enum NodeData {
    Root,
    Element {
        name: NameId,
        attributes: Range,
        namespaces: Range,
    },
    Attr {
        name: NameId,
        value: Option<TextSlot>,
    },
    Text(Option<TextSlot>),
    Comment(Option<TextSlot>),
    Namespace {
        prefix: Option<TextSlot>,
        uri: Option<TextSlot>,
    },
    ProcessingInstruction {
        target: Option<TextSlot>,
        data: Option<TextSlot>,
    },
}

#[derive(Clone, Copy, Debug, PartialEq, Eq)]
pub struct Node {
    pub data: NodeData,
    pub parent: Option<NodeId>,
    pub children: Range,
}

// Two words of a record that hold a range.
#[derive(Clone, Copy, Debug, PartialEq, Eq)]
pub struct Span {
    pub start: u64,
    pub len: u64,
}

// The node record: the twelve words of a slot by name, whether or not they are a node.
#[derive(Clone, Copy, Debug, PartialEq, Eq)]
pub struct NodeRecord {
    pub kind: u64,
    pub name: u64,
    pub first: u64,
    pub second: u64,
    pub parent: u64,
    pub generation: u64,
    pub children: Span,
    pub attributes: Span,
    pub namespaces: Span,
}
