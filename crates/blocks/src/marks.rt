// Deciding rule 5 for one arena: blocks claimed one after another, with a mark for each entry in use.
ghost use Rattle.std.specs.Prelude.{◌≡◌, ℕ, ◌+◌, ◌≤◌, length, eqb};
ghost use Rattle.words.specs.Lists.{all};
ghost use Rattle.blocks.specs.Arena.{arena_of};
ghost use Rattle.blocks.specs.Claims.{claimable, claimed, block_claimable, block_claimed};

use crate::Block;
use crate::arena::ArenaWords;

fn all_zero(marks: &[u64]) -> bool
    ensures { result ≡ all (eqb 0) marks.now }
{
    marks.iter().all(|mark| 0 == *mark)
}

// Whether the entries have marks and none is claimed. A capacity may be near 2^64, so no sum says where they end.
fn unclaimed(marks: &[u64], start: usize, capacity: usize) -> bool
    ensures { result ≡ claimable marks.now start capacity }
{
    let Some(behind) = marks.get(start..) else {
        return false;
    };
    match behind.get(..capacity) {
        Some(entries) => all_zero(entries),
        None => false,
    }
}

// Claims the capacity entries from index start on, if they have marks and none is claimed.
// Stays: of marks that get_mut lent, only their number is known once they are given back.
pub fn claim(marks: &mut [u64], start: usize, capacity: usize) -> bool
    ensures value { result ≡ claimable marks.old start capacity }
    ensures marks_after { marks.new ≡ claimed marks.old start capacity }
{
    if unclaimed(marks, start, capacity) {
        words::fill(marks, start, capacity, 1);
        return true;
    }
    false
}

impl ArenaWords<'_> {
    // Claims the entries of a block with its capacity, if they have marks and none is claimed.
    pub fn claim_block(self, marks: &mut [u64], block: Block) -> bool
        requires { length marks.old ≤ self.limit }
        ensures by_index { (used : ℕ) → result ≡ block_claimable (arena_of self.entry.limit used self.entry.words.now) marks.old block }
        ensures by_index_2 { (used : ℕ) → marks.new ≡ block_claimed (arena_of self.entry.limit used self.entry.words.now) marks.old block }
    {
        if self.limit < block.start || self.limit - block.start < block.len {
            return false;
        }
        claim(marks, block.start, self.capacity(block))
    }
}
