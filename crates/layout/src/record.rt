// The record of a document with some of its fields replaced, and of a document that holds next to nothing.
ghost use Rattle.std.specs.Prelude.{◌≡◌};
ghost use Rattle.layout.specs.Layout.{which_of};
ghost use Rattle.layout.specs.Record.{outdated, with_slots, with_used, with_lengths, with_texts, with_names, renewed, slots_alone, fresh_record};

use crate::{Arena, Counts, Document, Limits};
use names::NameCounts;
use texts::TextCounts;

// ---- the order is not current any more

pub fn outdated(d: Document) -> Document
    ensures { result ≡ outdated d }
{
    Document {
        current: false,
        ..d
    }
}

// Other counts of the slots.
pub fn with_slots(d: Document, made: usize, free: usize) -> Document
    ensures { result ≡ with_slots d made free }
{
    let counts = Counts {
        slots: made,
        free,
        ..d.counts
    };
    Document {
        counts,
        current: false,
        ..d
    }
}

// Other lengths of the arenas.
pub fn with_lengths(d: Document, children: usize, attributes: usize, namespaces: usize) -> Document
    ensures { result ≡ with_lengths d children attributes namespaces }
{
    let counts = Counts {
        children,
        attributes,
        namespaces,
        ..d.counts
    };
    Document {
        counts,
        current: false,
        ..d
    }
}

// Another length of one arena.
#[tactic(auto, unfolding(crate::specs::Record::with_used))]
pub fn with_used(d: Document, arena: Arena, used: usize) -> Document
    ensures { result ≡ with_used d (which_of arena) used }
{
    let c = d.counts;
    match arena {
        Arena::Children => with_lengths(d, used, c.attributes, c.namespaces),
        Arena::Attributes => with_lengths(d, c.children, used, c.namespaces),
        Arena::Namespaces => with_lengths(d, c.children, c.attributes, used),
    }
}

// ---- the order stays as it is

// Other counts of the texts.
pub fn with_texts(d: Document, t: TextCounts) -> Document
    ensures { result ≡ with_texts d t }
{
    let counts = Counts {
        texts: t.slots,
        freetexts: t.free,
        textbytes: t.bytes,
        ..d.counts
    };
    Document { counts, ..d }
}

// Other counts of the names.
pub fn with_names(d: Document, t: NameCounts) -> Document
    ensures { result ≡ with_names d t }
{
    let counts = Counts {
        names: t.names,
        namebytes: t.bytes,
        ..d.counts
    };
    Document { counts, ..d }
}

// ---- the order is current

pub fn renewed(d: Document) -> Document
    ensures { result ≡ renewed d }
{
    Document { current: true, ..d }
}

// ---- next to nothing

// So many slots made and nothing else.
pub fn slots_alone(limits: Limits, made: usize, current: bool) -> Document
    ensures { result ≡ slots_alone limits made current }
{
    let counts = Counts {
        slots: made,
        ..Counts::default()
    };
    Document {
        limits,
        counts,
        current,
    }
}

// The Root's slot is made, and the order is current.
pub fn fresh_record(limits: Limits) -> Document
    ensures { result ≡ fresh_record limits }
{
    slots_alone(limits, 1, true)
}
