// From words to the node that they are. is_node has all the tests of rule 1, "words within their fields", that a record's words undergo.
ghost use Rattle.std.specs.Prelude.{◌≡◌, true, ◌<◌, ◌≤◌, leb};
ghost use Rattle.records.specs.Records.{has_name, has_children, most, is_span, is_data, is_parent, are_ranges, is_node, chars_of, parent_of, range_of, name_of, data_of, node_of};

use crate::kind::{ATTR, COMMENT, ELEMENT, NAMESPACE, PROCESSING_INSTRUCTION, ROOT, TEXT};
use crate::{Node, NodeData, NodeId, NodeRecord, Range, Span};
use words::{NameId, TextSlot};

// The greatest that a word may be: its field's, or zero where the word has no use.
fn most(used: bool, limit: u64) -> u64
    ensures { result ≡ most used limit }
{
    if used { limit } else { 0 }
}

// One comparison, whichever it is: words of one use share its bound.
fn fits(word: u64, used: bool, limit: u64) -> bool
    ensures { result ≡ leb word (most used limit) }
{
    word <= most(used, limit)
}

#[tactic(auto, unfolding(crate::specs::Records::is_span))]
fn span_fits(span: Span, used: bool) -> bool
    ensures { result ≡ is_span used span }
{
    fits(span.start, used, 4294967295) & fits(span.len, used, 4294967295)
}

fn has_name(kind: u64) -> bool
    ensures { result ≡ has_name kind }
{
    (kind == ELEMENT) | (kind == ATTR)
}

fn has_children(kind: u64) -> bool
    ensures { result ≡ has_children kind }
{
    (kind != ATTR) & (kind != NAMESPACE)
}

#[tactic(auto, using(crate::proofs::Decoding::regrouped), unfolding(crate::specs::Records::is_data))]
fn is_data(words: NodeRecord) -> bool
    ensures { result ≡ is_data words }
{
    let kind = words.kind;
    let named = has_name(kind);
    let name = fits(words.name, named, 4294967295);
    let first = fits(words.first, ATTR <= kind, 4294967296);
    let second = fits(words.second, NAMESPACE <= kind, 4294967296);
    (kind <= PROCESSING_INSTRUCTION) & name & first & second
}

#[tactic(auto, unfolding(crate::specs::Records::is_parent))]
fn is_parent(words: NodeRecord) -> bool
    ensures { result ≡ is_parent words }
{
    let parent = words.parent;
    let generation = fits(words.generation, parent != 0, 4294967295);
    (parent <= 4294967296) & generation
}

#[tactic(auto, using(crate::proofs::Decoding::regrouped), unfolding(crate::specs::Records::are_ranges))]
fn are_ranges(words: NodeRecord) -> bool
    ensures { result ≡ are_ranges words }
{
    let kind = words.kind;
    let parental = has_children(kind);
    let children = span_fits(words.children, parental);
    let attributes = span_fits(words.attributes, kind == ELEMENT);
    let namespaces = span_fits(words.namespaces, kind == ELEMENT);
    children & attributes & namespaces
}

// Whether the words are a node.
#[tactic(auto, using(crate::proofs::Decoding::regrouped), unfolding(crate::specs::Records::is_node))]
pub fn is_node(words: NodeRecord) -> bool
    ensures { result ≡ is_node words }
{
    is_data(words) & is_parent(words) & are_ranges(words)
}

pub fn chars_of(word: u64) -> Option<TextSlot>
    requires { word ≤ 4294967296 }
    ensures { result ≡ chars_of word }
{
    if word == 0 {
        None
    } else {
        Some(TextSlot((word - 1) as u32))
    }
}

pub fn parent_of(word: u64, generation: u64) -> Option<NodeId>
    requires { (word ≤ 4294967296) × (generation < 4294967296) }
    ensures { result ≡ parent_of word generation }
{
    if word == 0 {
        None
    } else {
        Some(NodeId {
            index: (word - 1) as u32,
            generation: generation as u32,
        })
    }
}

// Stays: From has no requires, and a span of two words need not be a range.
pub fn range_of(span: Span) -> Range
    requires { (span.start < 4294967296) × (span.len < 4294967296) }
    ensures { result ≡ range_of span }
{
    Range {
        start: span.start as u32,
        len: span.len as u32,
    }
}

fn name_of(word: u64) -> NameId
    requires { word < 4294967296 }
    ensures { result ≡ name_of word }
{
    NameId(word as u32)
}

#[tactic(auto, using(crate::proofs::Decoding::narrow), unfolding(crate::specs::Records::data_of))]
fn data_of(words: NodeRecord) -> NodeData
    requires { is_node words ≡ true }
    ensures { result ≡ data_of words }
{
    let name = name_of(words.name);
    let first = chars_of(words.first);
    let second = chars_of(words.second);
    let attributes = range_of(words.attributes);
    let namespaces = range_of(words.namespaces);
    match words.kind {
        ROOT => NodeData::Root,
        ELEMENT => NodeData::Element {
            name,
            attributes,
            namespaces,
        },
        ATTR => NodeData::Attr { name, value: first },
        TEXT => NodeData::Text(first),
        COMMENT => NodeData::Comment(first),
        NAMESPACE => NodeData::Namespace {
            prefix: first,
            uri: second,
        },
        _ => NodeData::ProcessingInstruction {
            target: first,
            data: second,
        },
    }
}

// The node that the words are, if they are one.
#[tactic(auto, using(crate::proofs::Decoding::narrow), unfolding(crate::specs::Records::node_of))]
pub fn node_of(words: NodeRecord) -> Option<Node>
    ensures { result ≡ node_of words }
{
    if is_node(words) {
        Some(Node {
            data: data_of(words),
            parent: parent_of(words.parent, words.generation),
            children: range_of(words.children),
        })
    } else {
        None
    }
}
