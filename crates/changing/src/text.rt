// The text of a text node is replaced.
ghost use Rattle.records.specs.Handles.{word_of};
ghost use Rattle.model.specs.Calls.{set-text};
ghost use Rattle.editing.specs.Contract.{Edits};
ghost use Rattle.editing.specs.Answers.{of_done, after_done};

use editing::admission::admit;
use edits::replace::do_set_text;
use layout::Document;
use memory::lent::Lent;
use model::Refusal;
use plans::setting::plan_set_text;
use records::NodeId;

// Rules out an order that stops being current, and a text slot given up by an emptied text.
pub fn set_text(
    d: Document,
    mem: &mut [u64],
    scratch: &mut [u64],
    id: NodeId,
    text: &[u8],
) -> Result<Document, Refusal>
    ensures { Edits (set-text (word_of id) text.now) d mem.old scratch.old (of_done result) (after_done d result) mem.new scratch.new }
{
    let doc = admit(d, mem, scratch)?;
    plan_set_text(&doc, id, text)?;
    let mut lent = Lent {
        document: d,
        words: mem,
    };
    do_set_text(&mut lent, id, text);
    Ok(lent.document)
}
