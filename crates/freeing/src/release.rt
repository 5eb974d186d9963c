// The texts of nodes are released: each slot goes on the free text list, then the bytes of all are given back.
ghost use Rattle.std.specs.Prelude.{◌∷◌, [], ◌≤◌, ◌<◌, length};
ghost use Rattle.model.specs.Kinds.{texts_of};
ghost use Rattle.model.specs.Doc.{kind_in};
ghost use Rattle.texts.specs.Pool.{reclaimed};
ghost use Rattle.memory.specs.Decode.{slot_of, kind_of, slots_made};
ghost use Rattle.memory.specs.Lent.{document_in, Stepped};
ghost use Rattle.edits.specs.Pooled.{set_pool};
ghost use Rattle.freeing.specs.Freed.{pushed_all};
ghost use Rattle.freeing.specs.Asked.{Releasable, Reclaimable};

use layout::record::with_texts;
use memory::lent::Lent;
use records::NodeData;
use records::encode::{first_text, second_text};
use words::{NodeSlot, TextSlot};

// The text slot goes on the free text list. Its bytes are given back by `reclaim_texts`.
fn push_slot(lent: &mut Lent<'_>, slot: TextSlot)
    requires { Releasable (document_in lent.old) (Some slot.0 ∷ []) }
    ensures { Stepped lent.old lent.new (set_pool (document_in lent.old) (pushed_all (document_in lent.old).pool (Some slot.0 ∷ []))) }
{
    let after = lent.push_text(slot);
    lent.put_record(with_texts(lent.document, after));
}

// A text stored empty has no slot.
fn push_chars(lent: &mut Lent<'_>, field: Option<TextSlot>)
    requires { Releasable (document_in lent.old) (slot_of field ∷ []) }
    ensures { Stepped lent.old lent.new (set_pool (document_in lent.old) (pushed_all (document_in lent.old).pool (slot_of field ∷ []))) }
{
    if let Some(slot) = field {
        push_slot(lent, slot);
    }
}

fn push_data(lent: &mut Lent<'_>, data: NodeData)
    requires { Releasable (document_in lent.old) (texts_of (kind_of «data»)) }
    ensures { Stepped lent.old lent.new (set_pool (document_in lent.old) (pushed_all (document_in lent.old).pool (texts_of (kind_of «data»)))) }
{
    let first = first_text(data);
    let second = second_text(data);
    push_chars(lent, first);
    push_chars(lent, second);
}

// The texts of the node in a slot, in the order in which its fields hold them.
pub fn push_texts(lent: &mut Lent<'_>, slot: NodeSlot)
    requires { (slot.0 < slots_made lent.old.document) × Releasable (document_in lent.old) (texts_of (kind_in (document_in lent.old) slot.0)) }
    ensures { Stepped lent.old lent.new (set_pool (document_in lent.old) (pushed_all (document_in lent.old).pool (texts_of (kind_in (document_in lent.old) slot.0)))) }
{
    if let Some(node) = lent.view().load(slot) {
        push_data(lent, node.data);
    }
}

// Gives back the bytes of every text on the free text list, in one pass. Scratch holds the marks, and anything after.
pub fn reclaim_texts(lent: &mut Lent<'_>, scratch: &mut [u64])
    requires { (lent.old.document.limits.texts ≤ length scratch.old) × Reclaimable (document_in lent.old) }
    ensures { Stepped lent.old lent.new (set_pool (document_in lent.old) (reclaimed (document_in lent.old).pool)) }
{
    let after = lent.give_back(scratch);
    lent.put_record(with_texts(lent.document, after));
}
