// A new element goes behind a node's children.
ghost use Rattle.records.specs.Handles.{word_of};
ghost use Rattle.model.specs.Calls.{append-element};
ghost use Rattle.editing.specs.Contract.{Edits};
ghost use Rattle.editing.specs.Answers.{of_made, after_made};

use editing::admission::admit;
use edits::append::do_append_element;
use edits::born::NewNode;
use layout::Document;
use memory::lent::Lent;
use model::Refusal;
use names::ExpandedName;
use plans::appends::plan_append_element;
use records::NodeId;

// Rules out a second element under the Root, and a name interned by a refused call.
pub fn append_element(
    d: Document,
    mem: &mut [u64],
    scratch: &mut [u64],
    parent: NodeId,
    namespace: &[u8],
    local: &[u8],
) -> Result<NewNode, Refusal>
    ensures { Edits (append-element (word_of parent) namespace.now local.now) d mem.old scratch.old (of_made result) (after_made d result) mem.new scratch.new }
{
    let name = ExpandedName { namespace, local };
    let doc = admit(d, mem, scratch)?;
    plan_append_element(&doc, parent, name)?;
    let mut lent = Lent {
        document: d,
        words: mem,
    };
    let id = do_append_element(&mut lent, parent, name);
    Ok(NewNode {
        document: lent.document,
        id,
    })
}
