// Rules 1 and 2 decided for the slots' words. For rule 2 the entries of the free stack are counted into marks, and each mark is compared with what is due.
ghost use Rattle.std.specs.Prelude.{◌≡◌, ◌<◌, ◌≤◌, length, replicate};
ghost use Rattle.slots.specs.FreeRule.{generations, free_stack, free_rule, Counted, marks_match};
ghost use Rattle.slots.specs.WordsRule.{slot_words, words_rule};

use crate::region::Slots;
use records::decode::is_node;
use words::NodeSlot;

// Each entry is counted in the mark of its slot. False where an entry is no slot made.
fn count_entries(free: &[u64], made: usize, marks: &mut [u64]) -> bool
    requires { (made ≤ length marks.old) × (marks.old ≡ replicate (length marks.old) 0) }
    ensures { Counted made free.now marks.new result }
{
    for &entry in free {
        if entry >= made as u64 {
            return false;
        }
        marks[entry as usize] += 1;
    }
    true
}

// Whether each slot's mark is 1 where its generation is odd, and 0 where it is even.
fn match_marks(generations: &[u64], marks: &[u64]) -> bool
    requires { length generations.now ≤ length marks.now }
    ensures { result ≡ marks_match (length generations.now) generations.now marks.now }
{
    for (s, &generation) in generations.iter().enumerate() {
        if marks[s] != generation % 2 {
            return false;
        }
    }
    true
}

impl Slots<'_> {
    // Whether rule 2 holds. The marks, a word for each slot made, are all zero before, and anything after.
    pub fn check_free(&self, made: usize, free: usize, marks: &mut [u64]) -> bool
        requires n_in_bounds { (made ≤ self.now.n) × (free ≤ self.now.n) }
        requires made_in_bounds { (made ≤ length marks.old) × (marks.old ≡ replicate (length marks.old) 0) }
        ensures { result ≡ free_rule (generations self.now.n self.now.words.now made) (free_stack self.now.n self.now.words.now free) }
    {
        let end = self.n + free;
        if count_entries(&self.words[self.n..end], made, marks) {
            match_marks(&self.words[0..made], marks)
        } else {
            false
        }
    }

    // Whether a slot's words are within their fields. A freed slot's record is under no rule.
    #[tactic(auto, unfolding(crate::specs::WordsRule::slot_words))]
    fn slot_fits(&self, slot: NodeSlot) -> bool
        requires { slot.0 < self.now.n }
        ensures { result ≡ slot_words self.now.n self.now.words.now slot.0 }
    {
        let generation = self.generation(slot);
        if generation >= 4294967296 {
            return false;
        }
        if self.order_word(slot) >= 4294967296 {
            return false;
        }
        if generation % 2 != 0 {
            return true;
        }
        is_node(self.record(slot))
    }

    // Whether rule 1 holds of the words of the slots made.
    pub fn check_words(&self, made: usize) -> bool
        requires { (made ≤ self.now.n) × (self.now.n ≤ 4294967296) }
        ensures { result ≡ words_rule self.now.n self.now.words.now made }
    {
        for s in 0..made {
            if !self.slot_fits(NodeSlot(s as u32)) {
                return false;
            }
        }
        true
    }
}
