// A new comment goes behind a node's children.
ghost use Rattle.records.specs.Handles.{word_of};
ghost use Rattle.model.specs.Calls.{append-comment};
ghost use Rattle.editing.specs.Contract.{Edits};
ghost use Rattle.editing.specs.Answers.{of_made, after_made};

use editing::admission::admit;
use edits::append::do_append_comment;
use edits::born::NewNode;
use layout::Document;
use memory::lent::Lent;
use model::Refusal;
use plans::appends::plan_append_comment;
use records::NodeId;

// Rules out a comment with two hyphens in a row, and a node before the last child.
// Stays: one call for it and `append_text` would be given the plan, the step and, in its clause, the call, which are all that it says.
pub fn append_comment(
    d: Document,
    mem: &mut [u64],
    scratch: &mut [u64],
    parent: NodeId,
    text: &[u8],
) -> Result<NewNode, Refusal>
    ensures { Edits (append-comment (word_of parent) text.now) d mem.old scratch.old (of_made result) (after_made d result) mem.new scratch.new }
{
    let doc = admit(d, mem, scratch)?;
    plan_append_comment(&doc, parent, text)?;
    let mut lent = Lent {
        document: d,
        words: mem,
    };
    let id = do_append_comment(&mut lent, parent, text);
    Ok(NewNode {
        document: lent.document,
        id,
    })
}
