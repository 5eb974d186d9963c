// What the checks read of a slot: single words, where rule 1 holds of them; and the marks that count.
#![tactic(auto, using(crate::proofs::Words::live_slots), unfolding(layout::specs::Layout::memory_ok, layout::specs::Layout::document_words, model::specs::Doc::limits_ok))]

ghost use Rattle.std.specs.Prelude.{◌≡◌, true, ◌<◌, ◌≤◌, length, get_or, set};
ghost use Rattle.model.specs.Doc.{handle_at, live_slot, resolves, kind_in, parent_in, range_in};
ghost use Rattle.layout.specs.Layout.{which_of};
ghost use Rattle.memory.specs.Decode.{block_of, handle_of, slot_of, slots_made};
ghost use Rattle.entries.specs.Nodes.{words_hold, record_word, kind_number, name_number, first_slot, second_slot};
ghost use Rattle.entries.specs.View.{decoded_nodes};
ghost use Rattle.entries.specs.Marks.{raised};
ghost use Rattle.entries.specs.Entering.{current_word};

use layout::Arena;
use memory::read::made;
use memory::view::View;
use records::{NodeId, Range};
use words::{NodeSlot, TextSlot};

// A view in which rule 1 holds of the words: a slot is live exactly where its generation is even.
#[derive(Clone, Copy)]
pub struct Nodes<'a> {
    pub view: View<'a>,
    pub ghost words: { words_hold view.document view.words.now ≡ true },
}

impl Nodes<'_> {
    // Whether a slot is live.
    pub fn is_live(&self, s: usize) -> bool
        requires { s < slots_made self.now.view.document }
        ensures { result ≡ live_slot (decoded_nodes self.now.view) s }
    {
        self.view.words[s] % 2 == 0
    }

    // Whether a handle resolves in the document: its generation tells.
    pub fn is_current(&self, handle: u64) -> bool
        ensures { result ≡ resolves (decoded_nodes self.now.view) handle }
    {
        current_word(self.view.words, made(self.view.document), handle)
    }

    // The word of a slot's handle.
    pub fn handle_of(&self, s: usize) -> u64
        requires { s < slots_made self.now.view.document }
        ensures { result ≡ handle_at (decoded_nodes self.now.view) s }
    {
        let generation = self.view.words[s];
        u64::from(NodeId {
            index: s as u32,
            generation: generation as u32,
        })
    }
}

// Whether a handle resolves, by the slots' generations, which the memory starts with.
pub fn current_word(mem: &[u64], made: usize, handle: u64) -> bool
    requires { made ≤ length mem.now }
    ensures { result ≡ current_word made mem.now handle }
{
    let s = (handle % 4294967296) as usize;
    s < made && (mem[s] % 2 == 0) & (mem[s] == handle / 4294967296)
}

// The number of a live slot's kind.
pub fn kind_of(view: &View<'_>, s: usize) -> u64
    requires { live_slot (decoded_nodes view.now) s ≡ true }
    ensures { result ≡ kind_number (kind_in (decoded_nodes view.now) s) }
{
    view.record_word(NodeSlot(s as u32), 0)
}

// The number of its name, 0 where its kind has none.
pub fn name_of(view: &View<'_>, s: usize) -> u64
    requires { live_slot (decoded_nodes view.now) s ≡ true }
    ensures { result ≡ name_number (kind_in (decoded_nodes view.now) s) }
{
    view.record_word(NodeSlot(s as u32), 1)
}

// Its texts, empty where its kind has none.
pub fn first_text(view: &View<'_>, s: usize) -> Option<TextSlot>
    requires { live_slot (decoded_nodes view.now) s ≡ true }
    ensures { slot_of result ≡ first_slot (kind_in (decoded_nodes view.now) s) }
{
    records::decode::chars_of(view.record_word(NodeSlot(s as u32), 2))
}

pub fn second_text(view: &View<'_>, s: usize) -> Option<TextSlot>
    requires { live_slot (decoded_nodes view.now) s ≡ true }
    ensures { slot_of result ≡ second_slot (kind_in (decoded_nodes view.now) s) }
{
    records::decode::chars_of(view.record_word(NodeSlot(s as u32), 3))
}

pub fn parent_of(view: &View<'_>, s: usize) -> Option<NodeId>
    requires { live_slot (decoded_nodes view.now) s ≡ true }
    ensures { handle_of result ≡ parent_in (decoded_nodes view.now) s }
{
    view.live_parent(NodeSlot(s as u32))
}

// The word that tells the parent of a live slot: its slot, one up, and 0 where there is none.
pub fn parent_word(view: &View<'_>, s: usize) -> u64
    requires { live_slot (decoded_nodes view.now) s ≡ true }
    ensures { result ≡ record_word view.now.document view.now.words.now s 4 }
{
    view.record_word(NodeSlot(s as u32), 4)
}

// The block of a live slot in an arena, none where its kind has no such list.
pub fn block_of(view: &View<'_>, arena: Arena, s: usize) -> Range
    requires { live_slot (decoded_nodes view.now) s ≡ true }
    ensures { block_of result ≡ range_in (decoded_nodes view.now) (which_of arena) s }
{
    view.live_block(NodeSlot(s as u32), arena)
}

// One more: 0 for none, 1 for one, 2 for more than one, so that no sum grows.
fn one_more(mark: u64) -> u64
    ensures { result ≡ raised mark }
{
    if mark == 0 { 1 } else { 2 }
}

// Counts a slot in its mark.
pub fn count(marks: &mut [u64], slot: usize)
    requires { slot < length marks.old }
    ensures { marks.new ≡ set marks.old slot (raised (get_or marks.old slot 0)) }
{
    marks[slot] = one_more(marks[slot]);
}
