// An attribute of an element is removed, where it has one of the name.
ghost use Rattle.records.specs.Handles.{word_of};
ghost use Rattle.model.specs.Calls.{remove-attribute};
ghost use Rattle.editing.specs.Contract.{Edits};
ghost use Rattle.editing.specs.Answers.{of_found, after_found};

use crate::remove::remove_node;
use editing::admission::admit;
use layout::Document;
use memory::lent::Lent;
use model::Refusal;
use names::ExpandedName;
use plans::listing::plan_remove_attribute;
use records::NodeId;

// Rules out true where there was none, and an attribute of the same local part in another namespace.
pub fn remove_attribute(
    d: Document,
    mem: &mut [u64],
    scratch: &mut [u64],
    element: NodeId,
    namespace: &[u8],
    local: &[u8],
) -> Result<(Document, bool), Refusal>
    ensures { Edits (remove-attribute (word_of element) namespace.now local.now) d mem.old scratch.old (of_found result) (after_found d result) mem.new scratch.new }
{
    let name = ExpandedName { namespace, local };
    let doc = admit(d, mem, scratch)?;
    let found = plan_remove_attribute(&doc, element, name)?;
    let Some(id) = found else {
        return Ok((d, false));
    };
    let mut lent = Lent {
        document: d,
        words: mem,
    };
    remove_node(&mut lent, scratch, id);
    Ok((lent.document, true))
}
