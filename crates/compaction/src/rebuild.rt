// The arenas rebuilt, and the call `compact` after its plan.
ghost use Rattle.std.specs.Prelude.{◌≡◌, ◌≤◌, length};
ghost use Rattle.model.specs.Kinds.{Which};
ghost use Rattle.model.specs.Rules.{Rules};
ghost use Rattle.model.specs.Edits.{rebuild_arenas};
ghost use Rattle.model.specs.Calls.{compact, done};
ghost use Rattle.layout.specs.Layout.{which_of, limits_of, entries_of, scratch_words};
ghost use Rattle.memory.specs.Lent.{document_in, Becomes, Stepped, Performs};
ghost use Rattle.compaction.specs.Copies.{length_of, arena_replaced, arenas_replaced, lengths_rebuilt};

use crate::copy::Lengths;
use crate::trees::lay_trees;
use layout::{Arena, Document};
use memory::lent::Lent;
use walks::order::renew_order;

// The copies in an arena replace the ids.
fn replace_blocks(lent: &mut Lent<'_>, arena: Arena, used: Lengths)
    requires { length_of used (which_of arena) ≤ entries_of lent.old.document.limits (which_of arena) }
    ensures { Becomes lent.old lent.new lent.old.document (arena_replaced lent.old.document (which_of arena) used lent.old.words.now) }
{
    lent.replace_blocks(arena, used.of(arena));
}

// The record with the new lengths of the arenas.
fn with_lengths(d: Document, used: Lengths) -> Document
    ensures { result ≡ lengths_rebuilt d used }
{
    layout::record::with_lengths(d, used.children, used.attributes, used.namespaces)
}

// The copies in all arenas replace the ids.
fn replace_arenas(lent: &mut Lent<'_>, used: Lengths)
    requires { (w : Which) → length_of used w ≤ entries_of lent.old.document.limits w }
    ensures { Becomes lent.old lent.new lent.old.document (arenas_replaced lent.old.document used lent.old.words.now) }
{
    replace_blocks(lent, Arena::Children, used);
    replace_blocks(lent, Arena::Attributes, used);
    replace_blocks(lent, Arena::Namespaces, used);
}

// The arenas rebuilt from the nodes without a parent, in slot order. Scratch holds the stack.
pub fn rebuild_arenas(lent: &mut Lent<'_>, scratch: &mut [u64])
    requires { (scratch_words (limits_of lent.old.document.limits) ≤ length scratch.old) × Rules (document_in lent.old) }
    ensures { Stepped lent.old lent.new (rebuild_arenas (document_in lent.old)) }
{
    let used = lay_trees(lent, scratch);
    replace_arenas(lent, used);
    lent.put_record(with_lengths(lent.document, used));
}

// The call: arenas rebuilt, and the order renewed.
pub fn do_compact(lent: &mut Lent<'_>, scratch: &mut [u64])
    requires { (scratch_words (limits_of lent.old.document.limits) ≤ length scratch.old) × Rules (document_in lent.old) }
    ensures { Performs compact lent.old lent.new done }
{
    rebuild_arenas(lent, scratch);
    renew_order(lent, scratch);
}
