// An attribute of an element is set: its value replaced, or a new one behind the others.
ghost use Rattle.std.specs.Prelude.{◌≡◌};
ghost use Rattle.records.specs.Handles.{word_of};
ghost use Rattle.names.specs.Expanded.{expanded};
ghost use Rattle.model.specs.Calls.{set-attribute, find_attribute, done};
ghost use Rattle.memory.specs.Decode.{decode, handle_of};
ghost use Rattle.memory.specs.Performed.{Admitted};
ghost use Rattle.memory.specs.Lent.{document_in, Performs};
ghost use Rattle.editing.specs.Contract.{Edits};
ghost use Rattle.editing.specs.Answers.{of_done, after_done};

use editing::admission::admit;
use edits::attributes::{append_attribute, replace_attribute};
use layout::Document;
use memory::lent::Lent;
use model::Refusal;
use names::ExpandedName;
use plans::listing::plan_set_attribute;
use records::NodeId;

fn put_attribute(
    lent: &mut Lent<'_>,
    element: NodeId,
    found: Option<NodeId>,
    name: ExpandedName<'_>,
    value: &[u8],
)
    requires admitted { Admitted (set-attribute (word_of element) name.namespace.now name.local.now value.now) lent.old.document lent.old.words.now }
    requires found_value { handle_of found ≡ find_attribute (document_in lent.old) (word_of element) (expanded name) }
    ensures { Performs (set-attribute (word_of element) name.entry.namespace.now name.entry.local.now value.now) lent.old lent.new done }
{
    match found {
        Some(id) => replace_attribute(lent, element, id, name, value),
        None => append_attribute(lent, element, name, value),
    }
}

// Rules out a second attribute of one name, and another place for one whose value is replaced.
pub fn set_attribute(
    d: Document,
    mem: &mut [u64],
    scratch: &mut [u64],
    element: NodeId,
    namespace: &[u8],
    local: &[u8],
    value: &[u8],
) -> Result<Document, Refusal>
    ensures { Edits (set-attribute (word_of element) namespace.now local.now value.now) d mem.old scratch.old (of_done result) (after_done d result) mem.new scratch.new }
{
    let name = ExpandedName { namespace, local };
    let doc = admit(d, mem, scratch)?;
    let found = plan_set_attribute(&doc, element, name, value)?;
    let mut lent = Lent {
        document: d,
        words: mem,
    };
    put_attribute(&mut lent, element, found, name, value);
    Ok(lent.document)
}
