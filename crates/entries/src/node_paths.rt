// Rule 6: from each live slot whose parent is not known to end, parents are followed until there is none or one that is known, in as many steps as there are
// slots; then the slots passed are marked as known, so that each is passed twice at most.
ghost use Rattle.std.specs.Prelude.{◌≡◌, true, ◌<◌, ◌≤◌, length, replicate, MatchOption};
ghost use Rattle.records.specs.Handles.{handle_index};
ghost use Rattle.model.specs.Doc.{live_slot, parent_in, map_option};
ghost use Rattle.model.specs.Rules.{Ends};
ghost use Rattle.model.specs.RulesTest.{parents_hold, parents_end_holds};
ghost use Rattle.memory.specs.Decode.{slots_made};
ghost use Rattle.entries.specs.View.{decoded_nodes};
ghost use Rattle.entries.specs.Paths.{Known, Followed, Passed};

use crate::nodes::{Nodes, parent_word};
use memory::read::made;
use memory::view::View;

// The slot of a live slot's parent.
fn parent_slot(view: &View<'_>, slot: usize) -> Option<usize>
    requires { live_slot (decoded_nodes view.now) slot ≡ true }
    ensures { MatchOption result (parent_in (decoded_nodes view.now) slot ≡ None) (λ s. map_option handle_index (parent_in (decoded_nodes view.now) slot) ≡ Some s) }
{
    let word = parent_word(view, slot);
    if word == 0 {
        None
    } else {
        Some((word - 1) as usize)
    }
}

// Nodes of which rule 3 holds too, so that parents can be followed from each live slot.
#[derive(Clone, Copy)]
pub struct Paths<'a> {
    pub nodes: Nodes<'a>,
    pub ghost parents: { parents_hold (decoded_nodes nodes.view) ≡ true },
}

impl Paths<'_> {
    // Whether following parents from a live slot ends, or comes to a slot that is known.
    #[tactic(auto, using(crate::proofs::Paths::live_made))]
    fn follow(&self, known: &[u64], slot: usize) -> bool
        requires { (slots_made self.now.nodes.view.document ≤ length known.now) × Known (decoded_nodes self.now.nodes.view) known.now × (live_slot (decoded_nodes self.now.nodes.view) slot ≡ true) }
        ensures { Followed (decoded_nodes self.now.nodes.view) slot result }
    {
        let view = &self.nodes.view;
        let mut at = slot;
        for _ in 0..made(view.document) {
            if known[at] != 0 {
                return true;
            }
            match parent_slot(view, at) {
                None => return true,
                Some(parent) => at = parent,
            }
        }
        false
    }

    // Marks the slots on a live slot's path, which ends.
    #[tactic(auto, using(crate::proofs::Paths::live_made))]
    fn mark_path(&self, known: &mut [u64], slot: usize)
        requires { (slots_made self.now.nodes.view.document ≤ length known.old) × Known (decoded_nodes self.now.nodes.view) known.old × Ends (decoded_nodes self.now.nodes.view) slot × (live_slot (decoded_nodes self.now.nodes.view) slot ≡ true) }
        ensures { Known (decoded_nodes self.now.nodes.view) known.new }
    {
        let mut at = slot;
        while known[at] == 0 {
            known[at] = 1;
            match parent_slot(&self.nodes.view, at) {
                None => return,
                Some(parent) => at = parent,
            }
        }
    }

    // Follows and marks the path of a live slot.
    fn pass_path(&self, known: &mut [u64], slot: usize) -> bool
        requires { (slots_made self.now.nodes.view.document ≤ length known.old) × Known (decoded_nodes self.now.nodes.view) known.old × (live_slot (decoded_nodes self.now.nodes.view) slot ≡ true) }
        ensures { Passed (decoded_nodes self.now.nodes.view) slot known.new result }
    {
        if !self.follow(known, slot) {
            return false;
        }
        self.mark_path(known, slot);
        true
    }

    // Whether a live slot has no parent, or one that is known.
    fn parent_known(&self, known: &[u64], slot: usize) -> bool
        requires { (slots_made self.now.nodes.view.document ≤ length known.now) × Known (decoded_nodes self.now.nodes.view) known.now × (live_slot (decoded_nodes self.now.nodes.view) slot ≡ true) }
        ensures { result ≡ true → Ends (decoded_nodes self.now.nodes.view) slot }
    {
        match parent_slot(&self.nodes.view, slot) {
            None => true,
            Some(parent) => known[parent] != 0,
        }
    }

    // Passes a slot, where it is live. Nearly always its parent is known, and then nothing is followed.
    fn pass_slot(&self, known: &mut [u64], slot: usize) -> bool
        requires { (slots_made self.now.nodes.view.document ≤ length known.old) × Known (decoded_nodes self.now.nodes.view) known.old × (slot < slots_made self.now.nodes.view.document) }
        ensures { Passed (decoded_nodes self.now.nodes.view) slot known.new result }
    {
        if !self.nodes.is_live(slot) {
            return true;
        }
        if self.parent_known(known, slot) {
            known[slot] = 1;
            return true;
        }
        self.pass_path(known, slot)
    }

    // Whether rule 6 holds. The marks, a word for each slot made, are all zero before, and anything after.
    pub fn check_paths(&self, known: &mut [u64]) -> bool
        requires { (slots_made self.now.nodes.view.document ≤ length known.old) × (known.old ≡ replicate (length known.old) 0) }
        ensures { result ≡ parents_end_holds (decoded_nodes self.now.nodes.view) }
    {
        for i in 0..made(self.nodes.view.document) {
            if !self.pass_slot(known, i) {
                return false;
            }
        }
        true
    }
}
