// Texts are stored in the document's pool.
ghost use Rattle.std.specs.Prelude.{◌≡◌};
ghost use Rattle.records.specs.Fields.{CharsFit};
ghost use Rattle.texts.specs.Pool.{stored, stored_slot};
ghost use Rattle.texts.specs.Words.{field_of};
ghost use Rattle.memory.specs.Decode.{slot_of};
ghost use Rattle.memory.specs.Lent.{document_in, Stepped};
ghost use Rattle.edits.specs.Pooled.{set_pool};
ghost use Rattle.edits.specs.Stores.{Storable, TwoStorable};

use layout::record::with_texts;
use memory::lent::Lent;
use words::TextSlot;

// What the fields of a node with two texts hold.
#[derive(Clone, Copy)]
pub struct StoredTexts {
    pub first: Option<TextSlot>,
    pub second: Option<TextSlot>,
}

// The pool's field as a node's.
// Stays: tried without; what reads the slot tells the check that its number has 32 bits.
fn chars_of(field: Option<TextSlot>) -> Option<TextSlot>
    ensures { (slot_of result ≡ field_of field) × CharsFit result }
{
    match field {
        None => None,
        Some(slot) => Some(slot),
    }
}

// What the node's field holds. It is written by whoever makes the node.
pub fn store_text(lent: &mut Lent<'_>, text: &[u8]) -> Option<TextSlot>
    requires { Storable lent.old.document lent.old.words.now text.now }
    ensures step { Stepped lent.old lent.new (set_pool (document_in lent.old) (stored (document_in lent.old).pool text.now)) }
    ensures field_value { (slot_of result ≡ stored_slot (document_in lent.old).pool text.now) × CharsFit result }
{
    let stored = lent.write_text(text);
    lent.put_record(with_texts(lent.document, stored.counts));
    chars_of(stored.field)
}

// Two texts of one node, one after the other.
pub fn store_two(lent: &mut Lent<'_>, first: &[u8], second: &[u8]) -> StoredTexts
    requires { TwoStorable lent.old.document lent.old.words.now first.now second.now }
    ensures step { Stepped lent.old lent.new (set_pool (document_in lent.old) (stored (stored (document_in lent.old).pool first.now) second.now)) }
    ensures first_value { (slot_of result.first ≡ stored_slot (document_in lent.old).pool first.now) × CharsFit result.first }
    ensures second_value { (slot_of result.second ≡ stored_slot (stored (document_in lent.old).pool first.now) second.now) × CharsFit result.second }
{
    let one = store_text(lent, first);
    let two = store_text(lent, second);
    StoredTexts {
        first: one,
        second: two,
    }
}
