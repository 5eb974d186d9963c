// Full: whether what a call takes is within the limits, asked before any write.
ghost use Rattle.std.specs.Prelude.{◌≡◌, true, ◌&&◌, List, ℕ, ◌≤◌, length};
ghost use Rattle.blocks.specs.Arena.{has_room};
ghost use Rattle.blocks.specs.Held.{Held};
ghost use Rattle.records.specs.Handles.{word_of};
ghost use Rattle.texts.specs.Pool.{slots_for};
ghost use Rattle.texts.specs.Words.{counts_fit};
ghost use Rattle.names.specs.Expanded.{expanded};
ghost use Rattle.model.specs.Doc.{resolves};
ghost use Rattle.model.specs.Calls.{full_unless, slot_fits, room_fits, node_fits, text_fits, two_fit, name_fits_in};
ghost use Rattle.layout.specs.Layout.{which_of, entries_of};
ghost use Rattle.memory.specs.Decode.{block_of, arena_part, arena_used, arena_in, decode, text_limits, text_counts};
ghost use Rattle.memory.specs.View.{decoded};
ghost use Rattle.verdicts.specs.Verdicts.{verdict_number};

use layout::{Arena, Document};
use memory::read::{arena_used, block_in, free, made, range_of};
use memory::stored::{text_counts, text_limits};
use memory::view::{Undamaged, View};
use model::Refusal;
use names::ExpandedName;
use records::{NodeId, Range};
use verdicts::verdict::full_unless;

// A slot when one is free or can be made.
pub fn slot_fits(d: Document) -> bool
    ensures { (mem : List ℕ) → result ≡ slot_fits (decode d mem) }
{
    slots::slot::has_slot(d.limits.nodes, made(d), free(d))
}

// Arena entries for one more id in a block.
fn block_fits(view: &View<'_>, arena: Arena, block: Range) -> bool
    requires { Held (arena_part view.now.document (which_of arena) view.now.words.now) (entries_of view.now.document.limits (which_of arena)) (arena_used view.now.document (which_of arena)) block.start block.len }
    ensures { result ≡ has_room (arena_in view.now.document (which_of arena) view.now.words.now) (block_of block) }
{
    view.arena_words(arena)
        .room_for(arena_used(view.document, arena), block_in(block))
}

// The same for the list of a node.
pub fn room_fits(doc: &Undamaged<'_>, arena: Arena, id: NodeId) -> bool
    ensures { result ≡ (resolves (decoded doc.now.view) (word_of id) && room_fits (decoded doc.now.view) (which_of arena) (word_of id)) }
{
    match doc.view.resolve(id) {
        Some(node) => block_fits(&doc.view, arena, range_of(node, arena)),
        None => false,
    }
}

// A slot, and entries in the list that the new node joins.
pub fn node_fits(doc: &Undamaged<'_>, arena: Arena, id: NodeId) -> bool
    ensures { result ≡ (resolves (decoded doc.now.view) (word_of id) && node_fits (decoded doc.now.view) (which_of arena) (word_of id)) }
{
    room_fits(doc, arena, id) && slot_fits(doc.view.document)
}

// Text slots, and text bytes once off are given back and on added.
pub fn texts_fit(d: Document, slots: usize, off: usize, on: usize) -> bool
    requires { (d.counts.texts ≤ d.limits.texts) × (d.counts.textbytes ≤ d.limits.textbytes) × (off ≤ d.counts.textbytes) }
    ensures { result ≡ counts_fit (text_limits d) (text_counts d) slots off on }
{
    texts::texts_fit(text_limits(d), text_counts(d), slots, off, on)
}

// The same of an undamaged document, whose counts are within its limits.
pub fn pool_fits(doc: &Undamaged<'_>, slots: usize, off: usize, on: usize) -> bool
    requires { off ≤ doc.now.view.document.counts.textbytes }
    ensures { result ≡ text_fits (decoded doc.now.view) slots off on }
{
    texts_fit(doc.view.document, slots, off, on)
}

// A text stored empty takes no slot.
fn slots_for(text: &[u8]) -> usize
    ensures { result ≡ slots_for text.now }
{
    usize::from(!text.is_empty())
}

// One new text.
pub fn text_fits(doc: &Undamaged<'_>, text: &[u8]) -> bool
    ensures { result ≡ text_fits (decoded doc.now.view) (slots_for text.now) 0 (length text.now) }
{
    pool_fits(doc, slots_for(text), 0, text.len())
}

// Two new texts of one call.
pub fn two_fit(doc: &Undamaged<'_>, first: &[u8], second: &[u8]) -> bool
    ensures { result ≡ two_fit (decoded doc.now.view) first.now second.now }
{
    let slots = slots_for(first) + slots_for(second);
    pool_fits(doc, slots, 0, first.len() + second.len())
}

// A name, where the table lacks it.
pub fn name_fits(doc: &Undamaged<'_>, name: ExpandedName<'_>) -> bool
    ensures { result ≡ name_fits_in (decoded doc.now.view) (expanded name.entry) }
{
    doc.view.name_table().name_fits(name)
}

// Full, of a new node with one text in the list of a live node.
pub fn text_node_fits(
    doc: &Undamaged<'_>,
    arena: Arena,
    id: NodeId,
    text: &[u8],
) -> Result<(), Refusal>
    requires { resolves (decoded doc.now.view) (word_of id) ≡ true }
    ensures { verdict_number result ≡ full_unless (text_fits (decoded doc.now.view) (slots_for text.now) 0 (length text.now) && node_fits (decoded doc.now.view) (which_of arena) (word_of id)) }
{
    full_unless(text_fits(doc, text) && node_fits(doc, arena, id))
}
