// A namespace of an element is declared: the URI of its prefix replaced, or a new node behind the others.
ghost use Rattle.std.specs.Prelude.{◌≡◌};
ghost use Rattle.records.specs.Handles.{word_of};
ghost use Rattle.model.specs.Calls.{declare-namespace, find_namespace, made};
ghost use Rattle.memory.specs.Decode.{decode, handle_of};
ghost use Rattle.memory.specs.Performed.{Admitted};
ghost use Rattle.memory.specs.Lent.{document_in, Performs};
ghost use Rattle.editing.specs.Contract.{Edits};
ghost use Rattle.editing.specs.Answers.{of_made, after_made};

use editing::admission::admit;
use edits::attributes::{append_namespace, replace_namespace};
use edits::born::NewNode;
use layout::Document;
use memory::lent::Lent;
use model::Refusal;
use plans::listing::plan_declare_namespace;
use records::NodeId;

fn put_namespace(
    lent: &mut Lent<'_>,
    element: NodeId,
    found: Option<NodeId>,
    prefix: &[u8],
    uri: &[u8],
) -> NodeId
    requires admitted { Admitted (declare-namespace (word_of element) prefix.now uri.now) lent.old.document lent.old.words.now }
    requires found_value { handle_of found ≡ find_namespace (document_in lent.old) (word_of element) prefix.now }
    ensures { Performs (declare-namespace (word_of element) prefix.now uri.now) lent.old lent.new (made (word_of result)) }
{
    match found {
        Some(id) => {
            replace_namespace(lent, element, id, prefix, uri);
            id
        }
        None => append_namespace(lent, element, prefix, uri),
    }
}

// Rules out a second node for one prefix, and a new handle where the URI is replaced.
pub fn declare_namespace(
    d: Document,
    mem: &mut [u64],
    scratch: &mut [u64],
    element: NodeId,
    prefix: &[u8],
    uri: &[u8],
) -> Result<NewNode, Refusal>
    ensures { Edits (declare-namespace (word_of element) prefix.now uri.now) d mem.old scratch.old (of_made result) (after_made d result) mem.new scratch.new }
{
    let doc = admit(d, mem, scratch)?;
    let found = plan_declare_namespace(&doc, element, prefix, uri)?;
    let mut lent = Lent {
        document: d,
        words: mem,
    };
    let id = put_namespace(&mut lent, element, found, prefix, uri);
    Ok(NewNode {
        document: lent.document,
        id,
    })
}
