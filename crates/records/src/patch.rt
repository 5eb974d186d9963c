// A record with another range or another parent.
ghost use Rattle.std.specs.Prelude.{◌≡◌};
ghost use Rattle.records.specs.Ranges.{with_children, with_attributes, with_namespaces, with_parent};

use crate::encode::{parent_generation, parent_word};
use crate::{NodeId, NodeRecord, Span};

// Stays: a named form of 01: when a block range changes, the node record is lent to one short step that patches it.
pub fn patch_children(words: &mut NodeRecord, range: Span)
    ensures { words.new ≡ with_children words.old range }
{
    words.children = range;
}

pub fn patch_attributes(words: &mut NodeRecord, range: Span)
    ensures { words.new ≡ with_attributes words.old range }
{
    words.attributes = range;
}

pub fn patch_namespaces(words: &mut NodeRecord, range: Span)
    ensures { words.new ≡ with_namespaces words.old range }
{
    words.namespaces = range;
}

// The words of a node under another parent.
pub fn with_parent(words: NodeRecord, parent: Option<NodeId>) -> NodeRecord
    ensures { result ≡ with_parent words parent }
{
    NodeRecord {
        parent: parent_word(parent),
        generation: parent_generation(parent),
        ..words
    }
}
