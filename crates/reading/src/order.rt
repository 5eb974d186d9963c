// The root node's handle, and the position of a node in document order.
ghost use Rattle.std.specs.Prelude.{◌≡◌, cond, ◌<◌};
ghost use Rattle.records.specs.Handles.{word_of};
ghost use Rattle.slots.specs.Regions.{order_at};
ghost use Rattle.model.specs.Calls.{key, key_of, refused, root-of, order-key};
ghost use Rattle.memory.specs.Decode.{slots_part};
ghost use Rattle.reading.specs.Answers.{of_root, of_key, order_shown};
ghost use Rattle.reading.specs.Contract.{reads};

use layout::Document;
use memory::view::View;
use model::Refusal;
use records::NodeId;
use words::NodeSlot;

// The Root's handle.
pub const ROOT: NodeId = NodeId {
    index: 0,
    generation: 0,
};

// Rules out another handle than (0, 0), and one where the memory is too short.
pub fn root(d: Document, mem: &[u64]) -> Result<NodeId, Refusal>
    ensures { of_root result ≡ reads root-of d mem.now }
{
    View::of(d, mem)?;
    Ok(ROOT)
}

// The key of a live node's slot: an order that is not current has none to show.
fn live_key(view: &View<'_>, slot: NodeSlot) -> Result<Option<u32>, Refusal>
    requires { slot.0 < view.now.document.limits.nodes }
    ensures { of_key result ≡ cond view.now.document.current (key (key_of (order_at view.now.document.limits.nodes (slots_part view.now.document view.now.words.now) slot.0))) (refused 15) }
{
    if view.document.current {
        Ok(view.order_key(slot))
    } else {
        Err(Refusal::OrderStale)
    }
}

// Rules out an old key while the order is not current, and OrderStale for a stale handle.
pub fn order_key(d: Document, mem: &[u64], id: NodeId) -> Result<Option<u32>, Refusal>
    ensures { of_key result ≡ reads (order-key (word_of id)) d mem.now }
{
    let view = View::of(d, mem)?;
    if view.resolves(id) {
        live_key(&view, NodeSlot(id.index))
    } else {
        Ok(None)
    }
}

// The order words of the slots made, as a part of the memory. Rules out words of slots that were never made, and those of a record.
pub fn order_words(d: Document, mem: &[u64]) -> &[u64]
    ensures { result.now ≡ order_shown d mem.now }
{
    match View::of(d, mem) {
        Ok(view) => view.order_words(),
        Err(_) => &[],
    }
}
