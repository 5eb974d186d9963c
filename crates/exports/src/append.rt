// The calls that append a child.
ghost use Rattle.model.specs.Calls.{append-element, append-text, append-comment, append-pi};
ghost use Rattle.exports.specs.Contract.{Exported, as_made};

use encoding::answer::{give_made, refused};
use encoding::record::lent_record;
use model::Refusal;
use records::NodeId;

// Stays: the C interface has a function for each call; what they have in common is `lent_record` and what gives the answer.
// An element behind the parent's children. Rules out a handle that a refused call writes.
pub fn oxml_append_element(
    document: &mut [u64],
    memory: &mut [u64],
    scratch: &mut [u64],
    parent: u64,
    namespace: &[u8],
    local: &[u8],
    made: &mut [u64],
) -> u64
    ensures { Exported (append-element parent namespace.now local.now) 1 as_made document.old memory.old scratch.old made.old result document.new memory.new scratch.new made.new }
{
    let Some(d) = lent_record(&document[..], made.len(), 1) else {
        return refused(Refusal::BadBuffers);
    };
    let id = NodeId::from(parent);
    let answer = appending::element::append_element(d, memory, scratch, id, namespace, local);
    give_made(document, made, answer)
}

// A text behind the parent's children. Rules out a record that is not written back.
pub fn oxml_append_text(
    document: &mut [u64],
    memory: &mut [u64],
    scratch: &mut [u64],
    parent: u64,
    text: &[u8],
    made: &mut [u64],
) -> u64
    ensures { Exported (append-text parent text.now) 1 as_made document.old memory.old scratch.old made.old result document.new memory.new scratch.new made.new }
{
    let Some(d) = lent_record(&document[..], made.len(), 1) else {
        return refused(Refusal::BadBuffers);
    };
    let id = NodeId::from(parent);
    let answer = appending::text::append_text(d, memory, scratch, id, text);
    give_made(document, made, answer)
}

// A comment behind the parent's children. Rules out a text in its place.
pub fn oxml_append_comment(
    document: &mut [u64],
    memory: &mut [u64],
    scratch: &mut [u64],
    parent: u64,
    text: &[u8],
    made: &mut [u64],
) -> u64
    ensures { Exported (append-comment parent text.now) 1 as_made document.old memory.old scratch.old made.old result document.new memory.new scratch.new made.new }
{
    let Some(d) = lent_record(&document[..], made.len(), 1) else {
        return refused(Refusal::BadBuffers);
    };
    let id = NodeId::from(parent);
    let answer = appending::comment::append_comment(d, memory, scratch, id, text);
    give_made(document, made, answer)
}

// A processing instruction behind the parent's children. Rules out its target and content swapped.
pub fn oxml_append_pi(
    document: &mut [u64],
    memory: &mut [u64],
    scratch: &mut [u64],
    parent: u64,
    target: &[u8],
    content: &[u8],
    made: &mut [u64],
) -> u64
    ensures { Exported (append-pi parent target.now content.now) 1 as_made document.old memory.old scratch.old made.old result document.new memory.new scratch.new made.new }
{
    let Some(d) = lent_record(&document[..], made.len(), 1) else {
        return refused(Refusal::BadBuffers);
    };
    let id = NodeId::from(parent);
    let answer = appending::instruction::append_pi(d, memory, scratch, id, target, content);
    give_made(document, made, answer)
}
