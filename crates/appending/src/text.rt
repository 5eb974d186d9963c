// A new text goes behind a node's children.
ghost use Rattle.records.specs.Handles.{word_of};
ghost use Rattle.model.specs.Calls.{append-text};
ghost use Rattle.editing.specs.Contract.{Edits};
ghost use Rattle.editing.specs.Answers.{of_made, after_made};

use editing::admission::admit;
use edits::append::do_append_text;
use edits::born::NewNode;
use layout::Document;
use memory::lent::Lent;
use model::Refusal;
use plans::appends::plan_append_text;
use records::NodeId;

// Rules out a text slot for an empty text, and text other than white space under the Root.
pub fn append_text(
    d: Document,
    mem: &mut [u64],
    scratch: &mut [u64],
    parent: NodeId,
    text: &[u8],
) -> Result<NewNode, Refusal>
    ensures { Edits (append-text (word_of parent) text.now) d mem.old scratch.old (of_made result) (after_made d result) mem.new scratch.new }
{
    let doc = admit(d, mem, scratch)?;
    plan_append_text(&doc, parent, text)?;
    let mut lent = Lent {
        document: d,
        words: mem,
    };
    let id = do_append_text(&mut lent, parent, text);
    Ok(NewNode {
        document: lent.document,
        id,
    })
}
