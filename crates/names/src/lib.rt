// The name table: (namespace, local) pairs, each once. Its words are two ends a name, then the bytes, one a word.
#![tactic(auto)]

ghost use Rattle.std.specs.Prelude.{◌≡◌, ◌+◌, length};
ghost use Rattle.names.specs.Words.{bytes_at, part_number, table_ok, part_shown, name_there};

use words::NameId;
use words::ends::{check_ends, piece, piece_there};

pub mod interning;

// How many names, and how many bytes of names, there may be.
#[derive(Clone, Copy)]
pub struct NameLimits {
    pub names: usize,
    pub bytes: usize,
}

// How many there are.
#[derive(Clone, Copy)]
pub struct NameCounts {
    pub names: usize,
    pub bytes: usize,
}

// A name's two parts: the namespace's bytes, none without one, and the local part's.
#[derive(Clone, Copy)]
pub struct ExpandedName<'a> {
    pub namespace: &'a [u8],
    pub local: &'a [u8],
}

// The parts of a name, in the order of their bytes.
#[derive(Clone, Copy)]
pub enum NamePart {
    Namespace,
    Local,
}

// The words of a table, as many as its limits say.
#[derive(Clone, Copy)]
pub struct NameTable<'a> {
    pub words: &'a [u64],
    pub limits: NameLimits,
    pub counts: NameCounts,
    pub ghost sized: { length words.now ≡ bytes_at limits + limits.bytes },
}

impl<'a> NameTable<'a> {
    // Whether the counts are within the limits and the ends reach the bytes used.
    #[tactic(auto, unfolding(crate::specs::Words::table_ok))]
    pub fn check_names(self) -> bool
        ensures { result ≡ table_ok self.entry.limits self.entry.counts self.entry.words.now }
    {
        let n = self.counts.names;
        let used = self.counts.bytes;
        n <= self.limits.names && used <= self.limits.bytes && check_ends(self.words, n + n, used)
    }

    // A part of a name; empty for a number outside the table or bytes outside the pool.
    #[tactic(auto, unfolding(crate::specs::Words::part_shown))]
    pub fn read_part(self, number: NameId, part: NamePart) -> &'a [u64]
        ensures { result.now ≡ part_shown self.entry.limits self.entry.counts number.0 (part_number part) self.entry.words.now }
    {
        let i = number.0 as usize;
        let n = self.counts.names.min(self.limits.names);
        let used = self.counts.bytes.min(self.limits.bytes);
        let at = self.limits.names + self.limits.names;
        piece(self.words, at, n + n, used, i + i + part as usize)
    }

    // Whether there is a name at the number: two words for each of its parts.
    #[tactic(auto, unfolding(crate::specs::Words::name_there))]
    pub fn has_name(self, number: NameId) -> bool
        ensures { result ≡ name_there self.entry.limits self.entry.counts number.0 self.entry.words.now }
    {
        let i = number.0 as usize;
        let n = self.counts.names.min(self.limits.names);
        let used = self.counts.bytes.min(self.limits.bytes);
        piece_there(self.words, n + n, used, i + i)
            && piece_there(self.words, n + n, used, i + i + 1)
    }
}
