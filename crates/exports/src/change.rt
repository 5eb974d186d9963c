// The calls that change a text, an attribute or a namespace.
ghost use Rattle.std.specs.Prelude.{[]};
ghost use Rattle.model.specs.Calls.{set-text, set-attribute, declare-namespace};
ghost use Rattle.exports.specs.Contract.{Exported, as_done, as_made};

use encoding::answer::{give_done, give_made, refused};
use encoding::record::lent_record;
use model::Refusal;
use records::NodeId;

// Stays: the C interface has a function for each call; what they have in common is `lent_record` and what gives the answer.
// The text of a text node. Rules out another node's text.
pub fn oxml_set_text(
    document: &mut [u64],
    memory: &mut [u64],
    scratch: &mut [u64],
    id: u64,
    text: &[u8],
) -> u64
    ensures { Exported (set-text id text.now) 0 as_done document.old memory.old scratch.old [] result document.new memory.new scratch.new [] }
{
    let Some(d) = lent_record(&document[..], 0, 0) else {
        return refused(Refusal::BadBuffers);
    };
    let id = NodeId::from(id);
    let answer = changing::text::set_text(d, memory, scratch, id, text);
    give_done(document, answer)
}

// An attribute of an element. Rules out a second attribute of the same name.
pub fn oxml_set_attribute(
    document: &mut [u64],
    memory: &mut [u64],
    scratch: &mut [u64],
    element: u64,
    namespace: &[u8],
    local: &[u8],
    value: &[u8],
) -> u64
    ensures { Exported (set-attribute element namespace.now local.now value.now) 0 as_done document.old memory.old scratch.old [] result document.new memory.new scratch.new [] }
{
    let Some(d) = lent_record(&document[..], 0, 0) else {
        return refused(Refusal::BadBuffers);
    };
    let id = NodeId::from(element);
    let answer = changing::attribute::set_attribute(
        d, memory, scratch, id, namespace, local, value,
    );
    give_done(document, answer)
}

// A namespace of an element. Rules out a new handle where the URI is replaced.
pub fn oxml_declare_namespace(
    document: &mut [u64],
    memory: &mut [u64],
    scratch: &mut [u64],
    element: u64,
    prefix: &[u8],
    uri: &[u8],
    made: &mut [u64],
) -> u64
    ensures { Exported (declare-namespace element prefix.now uri.now) 1 as_made document.old memory.old scratch.old made.old result document.new memory.new scratch.new made.new }
{
    let Some(d) = lent_record(&document[..], made.len(), 1) else {
        return refused(Refusal::BadBuffers);
    };
    let id = NodeId::from(element);
    let answer = changing::namespace::declare_namespace(d, memory, scratch, id, prefix, uri);
    give_made(document, made, answer)
}
