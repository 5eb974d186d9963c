// A new processing instruction goes behind a node's children.
ghost use Rattle.records.specs.Handles.{word_of};
ghost use Rattle.model.specs.Calls.{append-pi};
ghost use Rattle.editing.specs.Contract.{Edits};
ghost use Rattle.editing.specs.Answers.{of_made, after_made};

use editing::admission::admit;
use edits::append::do_append_pi;
use edits::born::NewNode;
use layout::Document;
use memory::lent::Lent;
use model::Refusal;
use plans::appends::plan_append_pi;
use records::NodeId;

// Rules out a target that is xml in any case, and the content stored before the target.
pub fn append_pi(
    d: Document,
    mem: &mut [u64],
    scratch: &mut [u64],
    parent: NodeId,
    target: &[u8],
    content: &[u8],
) -> Result<NewNode, Refusal>
    ensures { Edits (append-pi (word_of parent) target.now content.now) d mem.old scratch.old (of_made result) (after_made d result) mem.new scratch.new }
{
    let doc = admit(d, mem, scratch)?;
    plan_append_pi(&doc, parent, target, content)?;
    let mut lent = Lent {
        document: d,
        words: mem,
    };
    let id = do_append_pi(&mut lent, parent, target, content);
    Ok(NewNode {
        document: lent.document,
        id,
    })
}
