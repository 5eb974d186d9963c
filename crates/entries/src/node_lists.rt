// Rule 4: each entry of each live node's lists is tested where it stands and counted in the mark of its slot; then each live node with a parent is
// to have been counted once. What is done for each entry takes plain numbers: the record of the document is read once a slot.
ghost use Rattle.std.specs.Prelude.{◌≡◌, true, [], ◌∷◌, map, ◌+◌, ◌*◌, ◌<◌, ◌≤◌, length, get_or, replicate, eqb};
ghost use Rattle.words.specs.Parts.{part};
ghost use Rattle.words.specs.Lists.{all, all_below};
ghost use Rattle.records.specs.Handles.{handle_index};
ghost use Rattle.model.specs.Doc.{live_slot, handle_at, parent_in};
ghost use Rattle.model.specs.RulesTest.{implies, all_option, parents_hold, entries_hold, blocks_hold};
ghost use Rattle.memory.specs.Decode.{slots_made};
ghost use Rattle.entries.specs.View.{decoded_nodes};
ghost use Rattle.entries.specs.Marks.{Pass, gathered};
ghost use Rattle.entries.specs.Entering.{kind_list, parent_words, words_enter, lists_enter, slots_named, marked_once};

use crate::nodes::{Nodes, count, current_word};
use layout::{Arena, arena_at};
use memory::read::made;
use records::kind::{ATTR, NAMESPACE};
use words::NodeSlot;

// The list of its parent that a node of a kind stands in.
fn list_number(kind: u64) -> u64
    ensures { result ≡ kind_list kind }
{
    match kind {
        ATTR => 1,
        NAMESPACE => 2,
        _ => 0,
    }
}

// Whether the record that starts at an index has owner as its parent.
fn has_parent(mem: &[u64], at: usize, owner: u64) -> bool
    requires { at + 5 < length mem.now }
    ensures { result ≡ parent_words mem.now at owner }
{
    (mem[at + 4] == owner % 4294967296 + 1) & (mem[at + 5] == owner / 4294967296)
}

// A live node whose lists are counted: its handle, and of the document what is read once for all of its entries.
#[derive(Clone, Copy)]
struct Owner<'a> {
    mem: &'a [u64],
    nodes: usize,
    made: usize,
    handle: u64,
    ghost inside: { (15 * nodes ≤ length mem.now) × (made ≤ nodes) },
}

impl Owner<'_> {
    // Whether the word entry may stand in the list of this number: it resolves, to a node of the list's kind with this parent.
    fn holds(self, list: u64, entry: u64) -> bool
        ensures { result ≡ words_enter self.entry.nodes self.entry.made self.entry.mem.now list self.entry.handle entry }
    {
        if current_word(self.mem, self.made, entry) {
            let at = self.nodes * 2 + (entry % 4294967296) as usize * 12;
            has_parent(self.mem, at, self.handle) & (list_number(self.mem[at]) == list)
        } else {
            false
        }
    }

    // The entry is tested and counted.
    fn count_entry(self, list: u64, entry: u64, marks: &mut [u64]) -> bool
        requires { self.made ≤ length marks.old }
        ensures { Pass self.entry.made (words_enter self.entry.nodes self.entry.made self.entry.mem.now list self.entry.handle entry) (handle_index entry ∷ []) marks.old marks.new result }
    {
        if self.holds(list, entry) {
            count(marks, (entry % 4294967296) as usize);
            return true;
        }
        false
    }

    // The entries of the list whose block stands at an index of the memory: its start in the arena, which starts at first, and its length.
    fn count_list(self, list: u64, at: usize, first: usize, marks: &mut [u64]) -> bool
        requires marks_in_bounds { self.made ≤ length marks.old }
        requires at_in_bounds { (at + 1 < length self.mem.now) × (first + get_or self.mem.now at 0 + get_or self.mem.now (at + 1) 0 ≤ length self.mem.now) }
        ensures { Pass self.entry.made (all (words_enter self.entry.nodes self.entry.made self.entry.mem.now list self.entry.handle) (part (first + get_or self.entry.mem.now at 0) (get_or self.entry.mem.now (at + 1) 0) self.entry.mem.now)) (map handle_index (part (first + get_or self.entry.mem.now at 0) (get_or self.entry.mem.now (at + 1) 0) self.entry.mem.now)) marks.old marks.new result }
    {
        let start = first + self.mem[at] as usize;
        let end = start + self.mem[at + 1] as usize;
        for &entry in &self.mem[start..end] {
            if !self.count_entry(list, entry, marks) {
                return false;
            }
        }
        true
    }
}

// Nodes of which rule 5 holds too: the blocks of each live slot lie inside their arenas.
#[derive(Clone, Copy)]
pub struct Lists<'a> {
    pub nodes: Nodes<'a>,
    pub ghost blocks: { blocks_hold (decoded_nodes nodes.view) ≡ true },
}

impl Lists<'_> {
    // The three lists of a live slot, whose handle is owner. Each has its numbers written out, so that none is looked up by the arena.
    // Stays: an `Arena` in their place would be matched again for the number, the words and the start of each list.
    #[tactic(auto, using(crate::proofs::Words::live_slots), unfolding(layout::specs::Layout::memory_ok, layout::specs::Layout::document_words, model::specs::Doc::limits_ok))]
    fn count_node(&self, owner: u64, s: usize, marks: &mut [u64]) -> bool
        requires marks_in_bounds { slots_made self.now.nodes.view.document ≤ length marks.old }
        requires s_value { (live_slot (decoded_nodes self.now.nodes.view) s ≡ true) × (owner ≡ handle_at (decoded_nodes self.now.nodes.view) s) }
        ensures { Pass (slots_made self.now.nodes.view.document) (lists_enter (decoded_nodes self.now.nodes.view) s) (slots_named (decoded_nodes self.now.nodes.view) s) marks.old marks.new result }
    {
        let view = &self.nodes.view;
        let l = view.document.limits;
        let nodes = l.nodes;
        let node = Owner {
            mem: view.words,
            nodes,
            made: made(view.document),
            handle: owner,
        };
        let at = nodes * 2 + s * 12;
        if !node.count_list(0, at + 6, arena_at(l, Arena::Children), marks) {
            return false;
        }
        if !node.count_list(1, at + 8, arena_at(l, Arena::Attributes), marks) {
            return false;
        }
        node.count_list(2, at + 10, arena_at(l, Arena::Namespaces), marks)
    }

    // The lists of a slot, where it is live.
    fn count_slot(&self, s: usize, marks: &mut [u64]) -> bool
        requires { (slots_made self.now.nodes.view.document ≤ length marks.old) × (s < slots_made self.now.nodes.view.document) }
        ensures { Pass (slots_made self.now.nodes.view.document) (lists_enter (decoded_nodes self.now.nodes.view) s) (slots_named (decoded_nodes self.now.nodes.view) s) marks.old marks.new result }
    {
        if self.nodes.is_live(s) {
            let owner = self.nodes.handle_of(s);
            self.count_node(owner, s, marks)
        } else {
            true
        }
    }

    // The lists of all slots.
    fn count_lists(&self, marks: &mut [u64]) -> bool
        requires { slots_made self.now.nodes.view.document ≤ length marks.old }
        ensures { Pass (slots_made self.now.nodes.view.document) (all_below (lists_enter (decoded_nodes self.now.nodes.view)) (slots_made self.now.nodes.view.document)) (gathered (slots_named (decoded_nodes self.now.nodes.view)) (slots_made self.now.nodes.view.document)) marks.old marks.new result }
    {
        for i in 0..made(self.nodes.view.document) {
            if !self.count_slot(i, marks) {
                return false;
            }
        }
        true
    }

    // Whether rule 4 holds, where rule 3 does. The marks, a word for each slot made, are all zero before, and anything after.
    pub fn check_entries(&self, marks: &mut [u64]) -> bool
        requires parents { parents_hold (decoded_nodes self.now.nodes.view) ≡ true }
        requires marks_zero { (slots_made self.now.nodes.view.document ≤ length marks.old) × (marks.old ≡ replicate (length marks.old) 0) }
        ensures { result ≡ entries_hold (decoded_nodes self.now.nodes.view) }
    {
        self.count_lists(marks) && all_entered(&self.nodes, marks)
    }
}

// A live node that was not counted once has no parent.
#[tactic(auto, using(crate::proofs::Words::live_slots), unfolding(layout::specs::Layout::memory_ok, layout::specs::Layout::document_words, model::specs::Doc::limits_ok))]
fn entered_once(nodes: &Nodes<'_>, s: usize, mark: u64) -> bool
    requires { s < slots_made nodes.now.view.document }
    ensures { result ≡ implies (live_slot (decoded_nodes nodes.now.view) s) (all_option (λ _. eqb mark 1) (parent_in (decoded_nodes nodes.now.view) s)) }
{
    if mark == 1 {
        return true;
    }
    if nodes.is_live(s) {
        nodes.view.has_no_parent(NodeSlot(s as u32))
    } else {
        true
    }
}

// Whether each live node with a parent was counted once.
fn all_entered(nodes: &Nodes<'_>, marks: &[u64]) -> bool
    requires { slots_made nodes.now.view.document ≤ length marks.now }
    ensures { result ≡ all_below (marked_once (decoded_nodes nodes.now.view) marks.now) (slots_made nodes.now.view.document) }
{
    for i in 0..made(nodes.view.document) {
        if !entered_once(nodes, i, marks[i]) {
            return false;
        }
    }
    true
}
