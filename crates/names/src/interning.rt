// Finding a name by its bytes, and interning: a name is appended only where the table lacks it.
ghost use Rattle.std.specs.Prelude.{◌≡◌, SomeIff, true, ◌&&◌, ◌+◌, ◌-◌, ◌≤◌, ◌<◌, length};
ghost use Rattle.words.specs.Parts.{part};
ghost use Rattle.words.specs.Pieces.{same_bytes};
ghost use Rattle.names.specs.Table.{number_of, name_fits};
ghost use Rattle.names.specs.Expanded.{expanded};
ghost use Rattle.names.specs.Words.{table_of, TableHeld, one_more, appended, InternedTo};

use crate::{ExpandedName, NameCounts, NameLimits, NameTable};
use words::NameId;
use words::pieces::same_bytes;

// The number of an interned name, and the counts after.
#[derive(Clone, Copy)]
pub struct Interned {
    pub number: NameId,
    pub counts: NameCounts,
}

// Whether the words from index at to middle are the namespace, and those to end the local part.
fn same_name(words: &[u64], at: usize, middle: usize, end: usize, name: ExpandedName<'_>) -> bool
    requires { (at ≤ middle) × (middle ≤ end) × (end ≤ length words.now) }
    ensures { result ≡ (same_bytes name.entry.namespace.now (part at (middle - at) words.now) && same_bytes name.entry.local.now (part middle (end - middle) words.now)) }
{
    same_bytes(&words[at..middle], name.namespace) && same_bytes(&words[middle..end], name.local)
}

impl NameTable<'_> {
    // The number of the first equal pair, where there is one. Nothing here says that it has 32 bits, so it is no `NameId`.
    pub fn find_name(self, name: ExpandedName<'_>) -> Option<usize>
        requires { TableHeld self.limits self.counts self.words.now }
        ensures { SomeIff result (number_of (table_of self.entry.limits self.entry.counts self.entry.words.now) (expanded name.entry) < self.entry.counts.names) (number_of (table_of self.entry.limits self.entry.counts self.entry.words.now) (expanded name.entry)) }
    {
        let words = self.words;
        let n = self.counts.names;
        let base = self.limits.names + self.limits.names;
        let mut at = base;
        for k in 0..n {
            let middle = base + words[k + k] as usize;
            let end = base + words[k + k + 1] as usize;
            if same_name(words, at, middle, end, name) {
                return Some(k);
            }
            at = end;
        }
        None
    }

    // Whether the table has the name, or room for it.
    pub fn name_fits(self, name: ExpandedName<'_>) -> bool
        requires { TableHeld self.limits self.counts self.words.now }
        ensures { result ≡ name_fits self.entry.limits.names self.entry.limits.bytes (table_of self.entry.limits self.entry.counts self.entry.words.now) (expanded name.entry) }
    {
        if self.find_name(name).is_some() {
            return true;
        }
        self.counts.names < self.limits.names
            && name.namespace.len() + name.local.len() <= self.limits.bytes - self.counts.bytes
    }
}

// Writes a name that the table lacks behind the others.
// Stays: the words to write are no `NameTable`, since a second type over `&mut` words would serve this and `intern` alone.
fn append_name(
    words: &mut [u64],
    limits: NameLimits,
    counts: NameCounts,
    name: ExpandedName<'_>,
) -> NameCounts
    requires { TableHeld limits counts words.old × (counts.names < limits.names) × (counts.bytes + (length name.namespace.now + length name.local.now) ≤ limits.bytes) }
    ensures { (result ≡ one_more counts (expanded name.entry)) × (words.new ≡ appended limits counts words.old (expanded name.entry)) }
{
    let number = counts.names;
    let used = counts.bytes;
    let k = number + number;
    let middle = used + name.namespace.len();
    let bytes = middle + name.local.len();
    words[k] = middle as u64;
    words[k + 1] = bytes as u64;
    let at = limits.names + limits.names + used;
    words::pieces::write_bytes(words, at, name.namespace);
    words::pieces::write_bytes(words, at + name.namespace.len(), name.local);
    let names = number + 1;
    NameCounts { names, bytes }
}

// The number of the pair, which is appended where the table lacks it. The limit is such that a number is of 32 bits.
pub fn intern(
    words: &mut [u64],
    limits: NameLimits,
    counts: NameCounts,
    name: ExpandedName<'_>,
) -> Interned
    requires { TableHeld limits counts words.old × (name_fits limits.names limits.bytes (table_of limits counts words.old) (expanded name) ≡ true) × (limits.names < 4294967296) }
    ensures { InternedTo limits counts words.old words.new (expanded name.entry) result }
{
    let table = NameTable {
        words: &words[..],
        limits,
        counts,
    };
    if let Some(k) = table.find_name(name) {
        return Interned {
            number: NameId(k as u32),
            counts,
        };
    }
    let number = NameId(counts.names as u32);
    let counts = append_name(words, limits, counts, name);
    Interned { number, counts }
}
