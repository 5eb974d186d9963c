// What a node is, and the bytes of its texts.
ghost use Rattle.std.specs.Prelude.{◌≡◌};
ghost use Rattle.records.specs.Handles.{word_of};
ghost use Rattle.model.specs.Calls.{kind-of};
ghost use Rattle.memory.specs.Decode.{slot_of};
ghost use Rattle.reading.specs.Answers.{of_kind, text_bytes};
ghost use Rattle.reading.specs.Contract.{reads};

use layout::Document;
use memory::view::View;
use model::Refusal;
use records::{NodeData, NodeId};
use words::TextSlot;

// Rules out the kind of a stale handle, and the texts of another node.
pub fn kind(d: Document, mem: &[u64], id: NodeId) -> Result<Option<NodeData>, Refusal>
    ensures { of_kind d mem.now result ≡ reads (kind-of (word_of id)) d mem.now }
{
    let view = View::of(d, mem)?;
    let Some(node) = view.resolve(id) else {
        return Ok(None);
    };
    Ok(Some(node.data))
}

// The bytes of a text that `kind` showed, one a word, as a part of the memory. Rules out those of another slot, and bytes past those used.
pub fn text_bytes(d: Document, mem: &[u64], text: Option<TextSlot>) -> &[u64]
    ensures { result.now ≡ text_bytes d mem.now (slot_of text) }
{
    match View::of(d, mem) {
        Ok(view) => view.text_bytes(text),
        Err(_) => &[],
    }
}
