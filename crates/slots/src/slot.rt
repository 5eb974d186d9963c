// Handles that resolve, and slots that are taken and freed. Counts of slots made and of the free stack are passed in and returned.
ghost use Rattle.std.specs.Prelude.{◌≡◌, ◌+◌, ◌<◌, ◌≤◌, length};
ghost use Rattle.slots.specs.Regions.{slots_words, generation_at, put_generation};
ghost use Rattle.slots.specs.Slots.{up, resolved, has_slot, taken, taken_generations, taken_words, CanTake, freed_words};

use crate::region::{Slots, put_order};
use records::{Node, NodeId};
use words::NodeSlot;

// A slot that was taken, with the counts after.
#[derive(Clone, Copy, Debug, PartialEq, Eq)]
pub struct Taken {
    pub id: NodeId,
    pub made: usize,
    pub free: usize,
}

// Whether a slot can be taken: asked before any write.
pub fn has_slot(n: usize, made: usize, free: usize) -> bool
    ensures { result ≡ has_slot n made free }
{
    0 < free || made < n
}

impl Slots<'_> {
    // The node that a handle resolves to, for every handle.
    #[tactic(auto, unfolding(crate::specs::Slots::resolved, crate::specs::Slots::is_current))]
    pub fn resolve(&self, made: usize, id: NodeId) -> Option<Node>
        requires { made ≤ self.now.n }
        ensures { result ≡ resolved self.now.n self.now.words.now made id }
    {
        if id.index as usize >= made {
            return None;
        }
        let slot = NodeSlot(id.index);
        if self.generation(slot) != id.generation as u64 {
            return None;
        }
        if id.generation % 2 != 0 {
            return None;
        }
        self.node(slot)
    }
}

// A slot's generation goes up by one, and from 4,294,967,295 to 0. Rule 1 says that it is of 32 bits.
#[tactic(auto, unfolding(crate::specs::Regions::generation_at, crate::specs::Regions::put_generation))]
fn raise(words: &mut [u64], n: usize, slot: NodeSlot) -> u32
    requires { (slots_words n ≤ length words.old) × (slot.0 < n) × (generation_at n words.old slot.0 < 4294967296) }
    ensures { (result ≡ up (generation_at n words.old slot.0)) × (words.new ≡ put_generation n words.old slot.0 (up (generation_at n words.old slot.0))) }
{
    let s = slot.0 as usize;
    let generation = (words[s] as u32).wrapping_add(1);
    words[s] = generation as u64;
    generation
}

// The last freed slot with its generation raised, or a new one where none is free.
fn take_slot(words: &mut [u64], n: usize, made: usize, free: usize) -> Taken
    requires { CanTake n words.old made free }
    ensures { (result ≡ taken n words.old made free) × (words.new ≡ taken_generations n words.old made free) }
{
    if 0 < free {
        let top = free - 1;
        let index = words[n + top] as u32;
        let generation = raise(words, n, NodeSlot(index));
        return Taken {
            id: NodeId { index, generation },
            made,
            free: top,
        };
    }
    words[made] = 0;
    Taken {
        id: NodeId {
            index: made as u32,
            generation: 0,
        },
        made: made + 1,
        free: 0,
    }
}

// A slot for a new node, which has no position in document order yet. Its record is left to the caller to store.
#[tactic(auto, using(crate::proofs::Slots::taken_below))]
pub fn alloc(words: &mut [u64], n: usize, made: usize, free: usize) -> Taken
    requires { CanTake n words.old made free }
    ensures { (result ≡ taken n words.old made free) × (words.new ≡ taken_words n words.old made free) }
{
    let taken = take_slot(words, n, made, free);
    put_order(words, n, NodeSlot(taken.id.index), 4294967295);
    taken
}

// A slot is freed, and the length of the free stack returned. That there is room follows from rule 2: a live slot is not on the stack.
#[tactic(auto, unfolding(crate::specs::Slots::freed_words, crate::specs::Regions::put_free))]
pub fn free_slot(words: &mut [u64], n: usize, free: usize, slot: NodeSlot) -> usize
    requires { (slots_words n ≤ length words.old) × (slot.0 < n) × (free < n) × (generation_at n words.old slot.0 < 4294967296) }
    ensures { (result ≡ free + 1) × (words.new ≡ freed_words n words.old free slot.0) }
{
    raise(words, n, slot);
    words[n + free] = slot.0 as u64;
    free + 1
}
