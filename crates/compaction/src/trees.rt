// The lists of whole trees, from the nodes without a parent on, in slot order.
ghost use Rattle.std.specs.Prelude.{◌≡◌, true, ◌&&◌, List, ℕ, ◌≤◌, ◌<◌, length};
ghost use Rattle.model.specs.Doc.{live_slot, handle_at, parent_in, is_none};
ghost use Rattle.model.specs.Rules.{Rules};
ghost use Rattle.memory.specs.Decode.{slots_made};
ghost use Rattle.memory.specs.Lent.{document_in, Becomes};
ghost use Rattle.memory.specs.View.{decoded};
ghost use Rattle.compaction.specs.Copies.{NodesEven, TreesLaid, TreeAhead, NextLaid};

use crate::copy::{Lengths, lay_node};
use layout::Arena;
use memory::lent::Lent;
use memory::read::made;
use memory::view::View;
use walks::list::list_of;
use walks::order::slot_of;
use walks::stack::Stack;
use words::NodeSlot;

// Whether a live node without a parent is in a slot, where each slot of an even generation has a node.
fn is_top(view: &View<'_>, slot: NodeSlot) -> bool
    requires { (slot.0 < slots_made view.now.document) × NodesEven (decoded view.now) }
    ensures { result ≡ (live_slot (decoded view.now) slot.0 && is_none (parent_in (decoded view.now) slot.0)) }
{
    view.generation(slot) % 2 == 0 && view.has_no_parent(slot)
}

// The handle of the live node in a slot.
fn handle_in(view: &View<'_>, slot: NodeSlot) -> u64
    requires { live_slot (decoded view.now) slot.0 ≡ true }
    ensures { result ≡ handle_at (decoded view.now) slot.0 }
{
    slot.0 as u64 + view.generation(slot) * 4294967296
}

// Lays the lists of the tree of a slot. A node's children go on the stack, the first on top, before its range changes.
fn lay_tree(lent: &mut Lent<'_>, words: &mut [u64], slot: NodeSlot, used: Lengths) -> Lengths
    requires { (lent.old.document.limits.nodes ≤ length words.old) × TreeAhead lent.old.document lent.old.words.now slot.0 used }
    ensures laid { NextLaid lent.old.document lent.old.words.now lent.new.words.now slot.0 used result }
    ensures lent_after { Becomes lent.old lent.new lent.old.document lent.new.words.now }
{
    let mut stack = Stack::with_word(words, handle_in(&lent.view(), slot));
    let mut laid = used;
    // Stays: tried without; a measure over the lists needs the document that the trees before were laid of, which no variable holds.
    let mut left = made(lent.document);
    while let Some(word) = stack.pop() {
        stack.push_reversed(list_of(&lent.view(), slot_of(word), Arena::Children));
        laid = lay_node(lent, word, laid);
        left -= 1;
    }
    laid
}

// Lays the lists of the tree of a slot, if it has one.
fn lay_slot(lent: &mut Lent<'_>, words: &mut [u64], slot: NodeSlot, used: Lengths) -> Lengths
    requires { (lent.old.document.limits.nodes ≤ length words.old) × (slot.0 < slots_made lent.old.document) × ((origin : List ℕ) × TreesLaid lent.old.document origin lent.old.words.now slot.0 used) }
    ensures laid { NextLaid lent.old.document lent.old.words.now lent.new.words.now slot.0 used result }
    ensures lent_after { Becomes lent.old lent.new lent.old.document lent.new.words.now }
{
    if is_top(&lent.view(), slot) {
        lay_tree(lent, words, slot, used)
    } else {
        used
    }
}

// Lays the lists of all trees.
pub fn lay_trees(lent: &mut Lent<'_>, words: &mut [u64]) -> Lengths
    requires { (lent.old.document.limits.nodes ≤ length words.old) × Rules (document_in lent.old) }
    ensures laid { TreesLaid lent.old.document lent.old.words.now lent.new.words.now (slots_made lent.old.document) result }
    ensures lent_after { Becomes lent.old lent.new lent.old.document lent.new.words.now }
{
    let mut used = Lengths {
        children: 0,
        attributes: 0,
        namespaces: 0,
    };
    for s in 0..made(lent.document) {
        used = lay_slot(lent, words, NodeSlot(s as u32), used);
    }
    used
}
