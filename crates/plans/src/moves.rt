// The plan of `reparent` and `insert_at`: both are Full, and refused, alike.
#![tactic(auto, using(verdicts::proofs::Verdicts::refused_first, verdicts::proofs::Verdicts::accepted_first, verdicts::proofs::Verdicts::passed_on), unfolding(model::specs::Arguments::space_only))]

ghost use Rattle.std.specs.Prelude.{◌≡◌, true, ◌&&◌, ℕ, length};
ghost use Rattle.blocks.specs.Answer.{has_room_after_removal};
ghost use Rattle.blocks.specs.Held.{Held};
ghost use Rattle.records.specs.Handles.{word_of, handle_index};
ghost use Rattle.model.specs.Kinds.{children, is_element, is_root, child_kind, text_of, map_kind};
ghost use Rattle.model.specs.Doc.{resolves, kind_at, range_in, pair_at, bytes_at, view_at, any_option, on_path};
ghost use Rattle.model.specs.Edits.{unhook};
ghost use Rattle.model.specs.Arguments.{refuse_if, first};
ghost use Rattle.model.specs.Checks.{moved_text, stored_text, check_move};
ghost use Rattle.model.specs.Calls.{reparent, insert-at, step, room_fits, root_taken};
ghost use Rattle.memory.specs.Decode.{kind_of, block_of, arena_part, arena_used, arena_in};
ghost use Rattle.memory.specs.View.{decoded};
ghost use Rattle.verdicts.specs.Verdicts.{verdict_number, refusal_number};

use layout::Arena;
use lookup::paths::{on_path, parent_of};
use lookup::root::root_taken_by_other;
use lookup::stored::text_bytes;
use lookup::views::{a_child, container, data, is_element, is_root};
use memory::read::{arena_used, block_in};
use memory::view::{Undamaged, View};
use model::Refusal;
use records::{NodeData, NodeId, Range};
use room::full::room_fits;
use verdicts::arguments::not_space;
use verdicts::verdict::{full_unless, refuse_if};

// Stored bytes that aren't UTF-8 are InvalidText in a move.
fn moved_text(under_root: bool, text: &[u64]) -> Result<(), Refusal>
    ensures { verdict_number result ≡ moved_text under_root (Some text.now) }
{
    match productions::checks::check_text(text) {
        Ok(()) => not_space(under_root, text),
        Err(_) => Err(Refusal::InvalidText),
    }
}

fn moved_data(doc: &Undamaged<'_>, under_root: bool, data: NodeData) -> Result<(), Refusal>
    ensures { verdict_number result ≡ moved_text under_root (text_of (map_kind (pair_at (decoded doc.now.view)) (bytes_at (decoded doc.now.view)) (kind_of «data»))) }
{
    match data {
        NodeData::Text(content) => moved_text(under_root, text_bytes(doc, content)),
        _ => Ok(()),
    }
}

// The text of a text node, by the rule of its new parent.
fn text_moved(doc: &Undamaged<'_>, parent: NodeId, child: NodeId) -> Result<(), Refusal>
    ensures { verdict_number result ≡ moved_text (any_option is_root (view_at (decoded doc.now.view) (word_of parent))) (stored_text (view_at (decoded doc.now.view) (word_of child))) }
{
    let under_root = is_root(&doc.view, parent);
    match data(&doc.view, child) {
        Ok(found) => moved_data(doc, under_root, found),
        Err(_) => Ok(()),
    }
}

// A second element under the Root.
fn other_root(doc: &Undamaged<'_>, parent: NodeId, child: NodeId) -> Result<(), Refusal>
    ensures { verdict_number result ≡ refuse_if (any_option is_root (view_at (decoded doc.now.view) (word_of parent)) && (any_option is_element (view_at (decoded doc.now.view) (word_of child)) && root_taken (decoded doc.now.view) (Some (word_of child)))) 12 }
{
    refuse_if(
        is_root(&doc.view, parent)
            && is_element(&doc.view, child)
            && root_taken_by_other(doc, child),
        Refusal::RootElementExists,
    )
}

// What is tested of the two once both kinds are right: the cycle, the second root, the text.
fn check_under(doc: &Undamaged<'_>, parent: NodeId, child: NodeId) -> Result<(), Refusal>
    ensures { verdict_number result ≡ first (refuse_if (on_path (length (decoded doc.now.view).gens) (decoded doc.now.view) (word_of child) (word_of parent)) 13) (first (refuse_if (any_option is_root (view_at (decoded doc.now.view) (word_of parent)) && (any_option is_element (view_at (decoded doc.now.view) (word_of child)) && root_taken (decoded doc.now.view) (Some (word_of child)))) 12) (moved_text (any_option is_root (view_at (decoded doc.now.view) (word_of parent))) (stored_text (view_at (decoded doc.now.view) (word_of child))))) }
{
    refuse_if(on_path(&doc.view, child, parent), Refusal::WouldCycle)?;
    other_root(doc, parent, child)?;
    text_moved(doc, parent, child)
}

fn check_move(doc: &Undamaged<'_>, parent: NodeId, child: NodeId) -> Result<(), Refusal>
    ensures { verdict_number result ≡ check_move (view_at (decoded doc.now.view) (word_of child)) (view_at (decoded doc.now.view) (word_of parent)) (on_path (length (decoded doc.now.view).gens) (decoded doc.now.view) (word_of child) (word_of parent)) (root_taken (decoded doc.now.view) (Some (word_of child))) }
{
    a_child(&doc.view, child)?;
    container(&doc.view, parent)?;
    check_under(doc, parent, child)
}

// Room in a block of children once a word was dropped from it.
fn block_left_fits(view: &View<'_>, block: Range, word: u64) -> bool
    requires { Held (arena_part view.now.document children view.now.words.now) view.now.document.limits.children (arena_used view.now.document children) block.start block.len }
    ensures { result ≡ has_room_after_removal (arena_in view.now.document children view.now.words.now) (block_of block) word }
{
    let used = arena_used(view.document, Arena::Children);
    view.arena_words(Arena::Children)
        .room_after_drop(used, block_in(block), word)
}

// The same for the children of a node.
fn room_left(doc: &Undamaged<'_>, parent: NodeId, child: NodeId) -> bool
    ensures { result ≡ (resolves (decoded doc.now.view) (word_of parent) && has_room_after_removal ((decoded doc.now.view).arenas children) (range_in (decoded doc.now.view) children (handle_index (word_of parent))) (word_of child)) }
{
    match doc.view.resolve(parent) {
        Some(node) => block_left_fits(&doc.view, node.children, u64::from(child)),
        None => false,
    }
}

// Entries for a moved node: its unlinking gives room only in the block that it leaves.
fn moved_fits(doc: &Undamaged<'_>, parent: NodeId, child: NodeId) -> bool
    requires { (resolves (decoded doc.now.view) (word_of parent) ≡ true) × (resolves (decoded doc.now.view) (word_of child) ≡ true) × (child_kind (kind_at (decoded doc.now.view) (word_of child)) ≡ 0) }
    ensures { result ≡ room_fits (unhook (decoded doc.now.view) (word_of child)) children (word_of parent) }
{
    match parent_of(&doc.view, u64::from(child)) {
        None => room_fits(doc, Arena::Children, parent),
        Some(old) => {
            if old.index == parent.index {
                room_left(doc, parent, child)
            } else {
                room_fits(doc, Arena::Children, parent)
            }
        }
    }
}

pub fn plan_move(doc: &Undamaged<'_>, parent: NodeId, child: NodeId) -> Result<(), Refusal>
    ensures result_value { verdict_number result ≡ refusal_number (step (reparent (word_of child) (word_of parent)) (decoded doc.now.view)).answer }
    ensures by_index { (i : ℕ) → verdict_number result ≡ refusal_number (step (insert-at (word_of parent) i (word_of child)) (decoded doc.now.view)).answer }
{
    check_move(doc, parent, child)?;
    full_unless(moved_fits(doc, parent, child))
}
