// One step of a walk, behind test 4.
ghost use Rattle.std.specs.Prelude.{◌≡◌, true, ◌+◌, ◌≤◌, ◌<◌, min};
ghost use Rattle.blocks.specs.Arena.{list_of};
ghost use Rattle.records.specs.Handles.{word_of, id_of};
ghost use Rattle.model.specs.Kinds.{children};
ghost use Rattle.model.specs.Doc.{resolves};
ghost use Rattle.layout.specs.Layout.{entries_of};
ghost use Rattle.memory.specs.Decode.{block_of, arena_in, slots_made};
ghost use Rattle.memory.specs.View.{decoded};
ghost use Rattle.steps.specs.Next.{hinted_index, names_parent, visit_entry, seek_under, seek, following, successor, next};

use crate::position::{Position, hint_for, with_hint};
use layout::Arena;
use memory::view::View;
use records::{NodeId, Range};
use showing::shown::{live_shown_block, live_shown_parent, shown_parent};
use std::ops::ControlFlow;

// The parent of a node that no sibling follows, and how many entries the lists further up may have.
#[derive(Clone, Copy)]
pub struct Above {
    pub node: u64,
    pub room: usize,
}

// The index of a word in a block of children, the hint tried first, or the block's length.
fn hinted_index(view: &View<'_>, block: Range, word: u64, hint: usize) -> usize
    requires { block.start + block.len ≤ entries_of view.now.document.limits children }
    ensures { result ≡ hinted_index (list_of (arena_in view.now.document children view.now.words.now) (block_of block)) word hint }
{
    let entries = view.block_words(Arena::Children, block);
    if hint < entries.len() && entries[hint] == word {
        return hint;
    }
    entries
        .iter()
        .position(|entry| *entry == word)
        .unwrap_or(entries.len())
}

fn names_parent(view: &View<'_>, parent: u64, word: u64) -> bool
    ensures { result ≡ names_parent (decoded view.now) parent word }
{
    match shown_parent(view, NodeId::from(word)) {
        None => false,
        Some(id) => parent == u64::from(id),
    }
}

// The walk goes on at index k of a parent's block, or ends where what stands there is no child of it: every node is then left by the list that it was
// entered by, so that a whole walk is linear in damaged memory too.
fn visit_entry(
    view: &View<'_>,
    at: Position,
    parent: u64,
    block: Range,
    k: usize,
) -> Option<Position>
    requires { (block.start + block.len ≤ entries_of view.now.document.limits children) × (k < block.len) × (0 < min at.left view.now.document.limits.nodes) }
    ensures { result ≡ visit_entry (decoded view.now) at parent (list_of (arena_in view.now.document children view.now.words.now) (block_of block)) k }
{
    let node = view.entry(Arena::Children, block.start as usize + k);
    if names_parent(view, parent, node) {
        let left = at.left.min(view.document.limits.nodes) - 1;
        let hints = with_hint(at.hints, block.len as usize, k);
        Some(Position {
            node,
            hints,
            left,
            ..at
        })
    } else {
        None
    }
}

// Behind a node in the list of its parent, which resolves, or further up; a list longer than the room ends the walk.
fn seek_listed(
    view: &View<'_>,
    at: Position,
    word: u64,
    parent: NodeId,
    room: usize,
) -> ControlFlow<Option<Position>, Above>
    requires { (0 < min at.left view.now.document.limits.nodes) × (resolves (decoded view.now) (word_of parent) ≡ true) }
    ensures { result ≡ seek_under room (decoded view.now) at word (Some (word_of parent)) }
{
    let block = live_shown_block(view, parent, Arena::Children);
    let len = block.len as usize;
    if room < len {
        return ControlFlow::Break(None);
    }
    let node = u64::from(parent);
    let k = hinted_index(view, block, word, hint_for(at.hints, len));
    if k + 1 < len {
        ControlFlow::Break(visit_entry(view, at, node, block, k + 1))
    } else {
        ControlFlow::Continue(Above {
            node,
            room: room - len,
        })
    }
}

// A parent that does not resolve ends the walk.
fn seek_under(
    view: &View<'_>,
    at: Position,
    word: u64,
    parent: NodeId,
    room: usize,
) -> ControlFlow<Option<Position>, Above>
    requires { 0 < min at.left view.now.document.limits.nodes }
    ensures { result ≡ seek_under room (decoded view.now) at word (Some (word_of parent)) }
{
    if view.resolves(parent) {
        seek_listed(view, at, word, parent, room)
    } else {
        ControlFlow::Break(None)
    }
}

// One turn, from a node that resolves.
fn seek(
    view: &View<'_>,
    at: Position,
    word: u64,
    room: usize,
) -> ControlFlow<Option<Position>, Above>
    requires { (0 < min at.left view.now.document.limits.nodes) × (resolves (decoded view.now) word ≡ true) }
    ensures { result ≡ seek room (decoded view.now) at word }
{
    if word == at.zone {
        return ControlFlow::Break(None);
    }
    match live_shown_parent(view, NodeId::from(word)) {
        None => ControlFlow::Break(None),
        Some(parent) => seek_under(view, at, word, parent, room),
    }
}

// The node that follows another, which resolves, and all that is below it; the slots made are turns enough, and as many entries are room enough for the
// lists on the way up.
fn following(view: &View<'_>, at: Position, from: u64) -> Option<Position>
    requires { (0 < min at.left view.now.document.limits.nodes) × (resolves (decoded view.now) from ≡ true) }
    ensures { result ≡ following (slots_made view.now.document) (slots_made view.now.document) (decoded view.now) at from }
{
    let made = memory::read::made(view.document);
    let mut word = from;
    let mut room = made;
    for _ in 0..made {
        match seek(view, at, word, room) {
            ControlFlow::Break(found) => return found,
            ControlFlow::Continue(above) => {
                word = above.node;
                room = above.room;
            }
        }
    }
    None
}

// The first child of the node listed last, which resolves, or else the node that follows.
pub fn successor(view: &View<'_>, at: Position, id: NodeId) -> Option<Position>
    requires { (0 < min at.left view.now.document.limits.nodes) × (id ≡ id_of at.node) × (resolves (decoded view.now) (word_of id) ≡ true) }
    ensures { result ≡ successor (decoded view.now) at }
{
    let block = live_shown_block(view, id, Arena::Children);
    if 0 < block.len {
        visit_entry(view, at, at.node, block, 0)
    } else {
        following(view, at, at.node)
    }
}

pub fn step(view: &View<'_>, at: Position) -> Option<Position>
    ensures { result ≡ next (decoded view.now) at }
{
    let id = NodeId::from(at.node);
    if 0 < at.left.min(view.document.limits.nodes) && view.resolves(id) {
        successor(view, at, id)
    } else {
        None
    }
}
