// The record of a document, where its regions lie in the lent buffer, and test 4.
#![tactic(auto)]

ghost use Rattle.std.specs.Prelude.{◌≡◌, true, ◌+◌};
ghost use Rattle.model.specs.Doc.{limits_ok};
ghost use Rattle.slots.specs.Regions.{slots_words};
ghost use Rattle.layout.specs.Layout.{which_of, limits_of, slots_at, arena_at, arena_words, texts_at, texts_words, names_at, names_words, document_words, scratch_words, memory_ok, buffers_ok};

use slots::region::SLOT_WORDS;
use std::ops::Range;

pub mod record;

// How much a document may hold; chosen at the start.
#[derive(Clone, Copy, Debug, PartialEq, Eq)]
pub struct Limits {
    pub nodes: usize,
    pub children: usize,
    pub attributes: usize,
    pub namespaces: usize,
    pub texts: usize,
    pub textbytes: usize,
    pub names: usize,
    pub namebytes: usize,
}

// How much it holds: slots made and free, the arenas' lengths, text slots made and released, names, and the bytes of texts and names.
#[derive(Clone, Copy, Debug, Default, PartialEq, Eq)]
pub struct Counts {
    pub slots: usize,
    pub free: usize,
    pub children: usize,
    pub attributes: usize,
    pub namespaces: usize,
    pub texts: usize,
    pub freetexts: usize,
    pub textbytes: usize,
    pub names: usize,
    pub namebytes: usize,
}

// The record that goes with the memory, passed by value; current says whether the order is.
// Stays: the flag is a word of the record that C lends, and no other field is there for it alone.
#[derive(Clone, Copy, Debug, PartialEq, Eq)]
pub struct Document {
    pub limits: Limits,
    pub counts: Counts,
    pub current: bool,
}

// The three arenas, as the source names them.
#[derive(Clone, Copy, Debug, PartialEq, Eq)]
pub enum Arena {
    Children,
    Attributes,
    Namespaces,
}

// Whether the limits are at most the greatest, and there may be a node. Any numbers are answered: nothing is added up.
#[tactic(auto, unfolding(model::specs::Doc::limits_ok))]
pub fn limits_ok(l: Limits) -> bool
    ensures { result ≡ limits_ok (limits_of l) }
{
    (0 < l.nodes)
        & (l.nodes <= 65536)
        & (l.children <= 262144)
        & (l.attributes <= 262144)
        & (l.namespaces <= 262144)
        & (l.texts <= 131072)
        & (l.textbytes <= 16777216)
        & (l.names <= 4096)
        & (l.namebytes <= 1048576)
}

// How many entries an arena may have.
pub fn arena_limit(l: Limits, arena: Arena) -> usize
    ensures { result ≡ (limits_of l).entries (which_of arena) }
{
    match arena {
        Arena::Children => l.children,
        Arena::Attributes => l.attributes,
        Arena::Namespaces => l.namespaces,
    }
}

// Stays, here and below: limits are any numbers before test 4, and a type for those that pass would be made anew of the record's at each use.
// Where an arena starts: after the words of each slot, one behind the other.
#[tactic(auto, unfolding(crate::specs::Layout::arena_at))]
pub fn arena_at(l: Limits, arena: Arena) -> usize
    requires { limits_ok (limits_of l) ≡ true }
    ensures { result ≡ arena_at (limits_of l) (which_of arena) }
{
    let slots = SLOT_WORDS * l.nodes;
    match arena {
        Arena::Children => slots,
        Arena::Attributes => slots + 2 * l.children,
        Arena::Namespaces => slots + 2 * l.children + 2 * l.attributes,
    }
}

// Where the words of the slots lie.
pub fn slots_range(l: Limits) -> Range<usize>
    requires { limits_ok (limits_of l) ≡ true }
    ensures start { result.start ≡ slots_at }
    ensures end { result.end ≡ result.start + slots_words l.nodes }
{
    0..SLOT_WORDS * l.nodes
}

// Where the words of an arena lie.
pub fn arena_range(l: Limits, arena: Arena) -> Range<usize>
    requires { limits_ok (limits_of l) ≡ true }
    ensures start { result.start ≡ arena_at (limits_of l) (which_of arena) }
    ensures end { result.end ≡ result.start + arena_words (limits_of l) (which_of arena) }
{
    let start = arena_at(l, arena);
    start..start + 2 * arena_limit(l, arena)
}

// Where the texts start.
#[tactic(auto, unfolding(crate::specs::Layout::texts_at))]
pub fn texts_at(l: Limits) -> usize
    requires { limits_ok (limits_of l) ≡ true }
    ensures { result ≡ texts_at (limits_of l) }
{
    SLOT_WORDS * l.nodes + 2 * l.children + 2 * l.attributes + 2 * l.namespaces
}

// Where the names start.
#[tactic(auto, unfolding(crate::specs::Layout::texts_at, crate::specs::Layout::names_at, crate::specs::Layout::document_words))]
pub fn names_at(l: Limits) -> usize
    requires { limits_ok (limits_of l) ≡ true }
    ensures { result ≡ names_at (limits_of l) }
{
    texts_at(l) + 2 * l.texts + l.textbytes
}

// Where the words of the texts lie.
pub fn texts_range(l: Limits) -> Range<usize>
    requires { limits_ok (limits_of l) ≡ true }
    ensures start { result.start ≡ texts_at (limits_of l) }
    ensures end { result.end ≡ result.start + texts_words (limits_of l) }
{
    let start = texts_at(l);
    start..start + (2 * l.texts + l.textbytes)
}

// Where the words of the names lie.
pub fn names_range(l: Limits) -> Range<usize>
    requires { limits_ok (limits_of l) ≡ true }
    ensures start { result.start ≡ names_at (limits_of l) }
    ensures end { result.end ≡ result.start + names_words (limits_of l) }
{
    let start = names_at(l);
    start..start + (2 * l.names + l.namebytes)
}

// How many words document memory takes.
#[tactic(auto, unfolding(crate::specs::Layout::texts_at, crate::specs::Layout::names_at, crate::specs::Layout::document_words))]
pub fn document_words(l: Limits) -> usize
    requires { limits_ok (limits_of l) ≡ true }
    ensures { result ≡ document_words (limits_of l) }
{
    names_at(l) + 2 * l.names + l.namebytes
}

// How many words scratch takes.
#[tactic(auto, unfolding(crate::specs::Layout::scratch_words))]
pub fn scratch_words(l: Limits) -> usize
    requires { limits_ok (limits_of l) ≡ true }
    ensures { result ≡ scratch_words (limits_of l) }
{
    4 * l.nodes + l.children + l.attributes + l.namespaces + l.texts
}

// Test 4 of a reading call, for every record and a buffer of mem words.
#[tactic(auto, unfolding(crate::specs::Layout::memory_ok))]
pub fn memory_ok(d: Document, mem: usize) -> bool
    ensures { result ≡ memory_ok d mem }
{
    limits_ok(d.limits) && document_words(d.limits) <= mem
}

// Test 4 of an editing call, which is lent scratch words besides.
#[tactic(auto, using(crate::proofs::Sizes::limits_within), unfolding(crate::specs::Layout::buffers_ok))]
pub fn buffers_ok(d: Document, mem: usize, scratch: usize) -> bool
    ensures { result ≡ buffers_ok d mem scratch }
{
    memory_ok(d, mem) && scratch_words(d.limits) <= scratch
}
