// The renewal of the order: "node, its namespaces, its attributes, then its children's subtrees", numbered from 0.
ghost use Rattle.std.specs.Prelude.{◌≡◌, ◌∷◌, [], ◌+◌, ◌≤◌, ◌<◌, length};
ghost use Rattle.records.specs.Handles.{handle_index};
ghost use Rattle.model.specs.Kinds.{Which};
ghost use Rattle.model.specs.Doc.{list_in};
ghost use Rattle.model.specs.Edits.{ordered, order_of, renew_order};
ghost use Rattle.layout.specs.Layout.{which_of, limits_of, scratch_words};
ghost use Rattle.memory.specs.Lent.{document_in, Becomes};
ghost use Rattle.layout.specs.Record.{renewed};
ghost use Rattle.walks.specs.Order.{Listed, Walkable, put_orders, put_keys, clear_keys, keyed_at};

use crate::list::list_of;
use crate::stack::Stack;
use layout::{Arena, arena_at};
use memory::lent::Lent;
use words::NodeSlot;

// The slot of a handle.
pub fn slot_of(word: u64) -> NodeSlot
    ensures { result.0 ≡ handle_index word }
{
    NodeSlot((word % 4294967296) as u32)
}

// A key for the node of a handle.
fn put_key(lent: &mut Lent<'_>, word: u64, key: u64)
    requires { handle_index word < lent.old.document.limits.nodes }
    ensures { Becomes lent.old lent.new lent.old.document (put_keys lent.old.document lent.old.words.now key (word ∷ [])) }
{
    lent.put_order(slot_of(word), key);
}

// Keys for a node's list, from key on; the next key.
fn number_list(lent: &mut Lent<'_>, slot: NodeSlot, arena: Arena, key: u64) -> u64
    requires { Listed lent.old.document lent.old.words.now (which_of arena) slot.0 × (key ≤ 1000000000000) }
    ensures value { result ≡ key + length (list_in (document_in lent.old) (which_of arena) slot.0) }
    ensures lent_after { Becomes lent.old lent.new lent.old.document (put_keys lent.old.document lent.old.words.now key (list_in (document_in lent.old) (which_of arena) slot.0)) }
{
    let block = lent.view().live_block(slot, arena);
    let start = arena_at(lent.document.limits, arena) + block.start as usize;
    let len = block.len as usize;
    for k in 0..len {
        let word = lent.words[start + k];
        put_key(lent, word, key + k as u64);
    }
    key + len as u64
}

// Keys for a node, its namespaces and its attributes; the next key.
fn number_node(lent: &mut Lent<'_>, word: u64, key: u64) -> u64
    requires { ((w : Which) → Listed lent.old.document lent.old.words.now w (handle_index word)) × (key ≤ 900000000000) }
    ensures value { result ≡ key + length (keyed_at (document_in lent.old) word) }
    ensures lent_after { Becomes lent.old lent.new lent.old.document (put_keys lent.old.document lent.old.words.now key (keyed_at (document_in lent.old) word)) }
{
    let slot = slot_of(word);
    put_key(lent, word, key);
    let behind = number_list(lent, slot, Arena::Namespaces, key + 1);
    number_list(lent, slot, Arena::Attributes, behind)
}

// Keys for all that is reached from the Root, from 0 on. A node's children go on the stack, the first on top.
fn number_tree(lent: &mut Lent<'_>, words: &mut [u64])
    requires { (lent.old.document.limits.nodes ≤ length words.old) × Walkable (document_in lent.old) }
    ensures { Becomes lent.old lent.new lent.old.document (put_keys lent.old.document lent.old.words.now 0 (ordered (document_in lent.old))) }
{
    let mut stack = Stack::with_word(words, 0);
    let mut key = 0;
    while let Some(word) = stack.pop() {
        key = number_node(lent, word, key);
        stack.push_reversed(list_of(&lent.view(), slot_of(word), Arena::Children));
    }
}

// No slot made has a key.
fn clear_keys(lent: &mut Lent<'_>)
    ensures { Becomes lent.old lent.new lent.old.document (clear_keys lent.old.document lent.old.words.now) }
{
    lent.clear_order();
}

// The renewed order. Scratch holds the stack, and anything after.
pub fn renew_order(lent: &mut Lent<'_>, scratch: &mut [u64])
    requires { (scratch_words (limits_of lent.old.document.limits) ≤ length scratch.old) × Walkable (document_in lent.old) }
    ensures document_after { document_in lent.new ≡ renew_order (document_in lent.old) }
    ensures lent_after { Becomes lent.old lent.new (renewed lent.old.document) (put_orders lent.old.document (order_of (document_in lent.old)) lent.old.words.now) }
{
    clear_keys(lent);
    number_tree(lent, scratch);
    lent.put_record(layout::record::renewed(lent.document));
}
