// The twelve words of a record, read and written by name.
ghost use Rattle.std.specs.Prelude.{◌≡◌, length};
ghost use Rattle.records.specs.Records.{read_record, record_words};

use crate::{NodeRecord, Span};

pub const RECORD_WORDS: usize = 12;

// Where each word of a record stands: of a block its start, then its length.
pub const KIND: usize = 0;

const NAME: usize = 1;

const FIRST: usize = 2;

const SECOND: usize = 3;

pub const PARENT: usize = 4;

pub const GENERATION: usize = 5;

pub const CHILDREN: usize = 6;

const CHILDREN_LEN: usize = CHILDREN + 1;

pub const ATTRIBUTES: usize = 8;

const ATTRIBUTES_LEN: usize = ATTRIBUTES + 1;

pub const NAMESPACES: usize = 10;

const NAMESPACES_LEN: usize = NAMESPACES + 1;

pub fn read_record(words: &[u64]) -> NodeRecord
    requires { length words.now ≡ 12 }
    ensures { result ≡ read_record words.now }
{
    NodeRecord {
        kind: words[KIND],
        name: words[NAME],
        first: words[FIRST],
        second: words[SECOND],
        parent: words[PARENT],
        generation: words[GENERATION],
        children: Span {
            start: words[CHILDREN],
            len: words[CHILDREN_LEN],
        },
        attributes: Span {
            start: words[ATTRIBUTES],
            len: words[ATTRIBUTES_LEN],
        },
        namespaces: Span {
            start: words[NAMESPACES],
            len: words[NAMESPACES_LEN],
        },
    }
}

pub fn write_record(words: &mut [u64], r: NodeRecord)
    requires { length words.old ≡ 12 }
    ensures { words.new ≡ record_words r }
{
    words[KIND] = r.kind;
    words[NAME] = r.name;
    words[FIRST] = r.first;
    words[SECOND] = r.second;
    words[PARENT] = r.parent;
    words[GENERATION] = r.generation;
    words[CHILDREN] = r.children.start;
    words[CHILDREN_LEN] = r.children.len;
    words[ATTRIBUTES] = r.attributes.start;
    words[ATTRIBUTES_LEN] = r.attributes.len;
    words[NAMESPACES] = r.namespaces.start;
    words[NAMESPACES_LEN] = r.namespaces.len;
}
