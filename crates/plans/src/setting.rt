// The plan of `set_text`, and Full of a replaced text.
#![tactic(auto, using(verdicts::proofs::Verdicts::refused_first, verdicts::proofs::Verdicts::accepted_first, verdicts::proofs::Verdicts::passed_on, crate::proofs::Replaced::text_live, crate::proofs::Replaced::set_text_live))]

ghost use Rattle.std.specs.Prelude.{◌≡◌, true, ◌≤◌, length};
ghost use Rattle.records.specs.Handles.{word_of};
ghost use Rattle.model.specs.Doc.{resolves, view_at, bytes_at};
ghost use Rattle.model.specs.Checks.{check_set_text};
ghost use Rattle.model.specs.Calls.{set-text, step, full_unless, under_root, replacement_fits, replaceable_at};
ghost use Rattle.memory.specs.Decode.{slot_of};
ghost use Rattle.memory.specs.View.{decoded};
ghost use Rattle.verdicts.specs.Verdicts.{verdict_number, refusal_number};

use lookup::paths::parent_of;
use lookup::views::{a_text, is_root};
use memory::stored::text_field;
use memory::view::Undamaged;
use model::Refusal;
use records::NodeId;
use room::full::{pool_fits, text_fits};
use verdicts::arguments::{not_utf8, text_under};
use verdicts::verdict::full_unless;
use words::TextSlot;

// Whether a live node's parent is the Root.
pub fn under_root(doc: &Undamaged<'_>, id: NodeId) -> bool
    requires { resolves (decoded doc.now.view) (word_of id) ≡ true }
    ensures { result ≡ under_root (decoded doc.now.view) (word_of id) }
{
    match parent_of(&doc.view, u64::from(id)) {
        None => false,
        Some(parent) => is_root(&doc.view, parent),
    }
}

fn check_set_text(doc: &Undamaged<'_>, id: NodeId, text: &[u8]) -> Result<(), Refusal>
    ensures { verdict_number result ≡ check_set_text text.now (view_at (decoded doc.now.view) (word_of id)) (under_root (decoded doc.now.view) (word_of id)) }
{
    not_utf8(text)?;
    a_text(&doc.view, id)?;
    text_under(under_root(doc, id), text)
}

// How many bytes the text of a slot has.
fn text_length(doc: &Undamaged<'_>, slot: TextSlot) -> usize
    ensures { (result ≡ length (bytes_at (decoded doc.now.view) (Some slot.0))) × (result ≤ doc.now.view.document.counts.textbytes) }
{
    doc.view.text_pool().place(slot).len
}

// The old text is counted off; a field with a slot keeps it.
pub fn replacement_fits(doc: &Undamaged<'_>, field: Option<TextSlot>, text: &[u8]) -> bool
    ensures { result ≡ replacement_fits (decoded doc.now.view) (slot_of field) text.now }
{
    match field {
        None => text_fits(doc, text),
        Some(slot) => pool_fits(doc, 0, text_length(doc, slot), text.len()),
    }
}

// Full, of another text of a live node.
pub fn replacing_fits(doc: &Undamaged<'_>, id: NodeId, text: &[u8]) -> Result<(), Refusal>
    requires { resolves (decoded doc.now.view) (word_of id) ≡ true }
    ensures { verdict_number result ≡ full_unless (replacement_fits (decoded doc.now.view) (replaceable_at (decoded doc.now.view) (word_of id)) text.now) }
{
    match doc.view.resolve(id) {
        Some(node) => {
            let field = text_field(node.data);
            full_unless(replacement_fits(doc, field, text))
        }
        None => Ok(()),
    }
}

pub fn plan_set_text(doc: &Undamaged<'_>, id: NodeId, text: &[u8]) -> Result<(), Refusal>
    ensures { verdict_number result ≡ refusal_number (step (set-text (word_of id) text.now) (decoded doc.now.view)).answer }
{
    check_set_text(doc, id, text)?;
    replacing_fits(doc, id, text)
}
