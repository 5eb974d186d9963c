// Every live node, in slot order.
ghost use Rattle.std.specs.Prelude.{◌≡◌, ◌&&◌, ◌+◌, ◌≤◌, ◌<◌, length, leb};
ghost use Rattle.words.specs.Parts.{put};
ghost use Rattle.model.specs.Doc.{live_nodes};
ghost use Rattle.layout.specs.Layout.{memory_ok};
ghost use Rattle.memory.specs.Decode.{slots_made};
ghost use Rattle.memory.specs.View.{decoded};
ghost use Rattle.reading.specs.Nodes.{live_entry};
ghost use Rattle.reading.specs.Contract.{NodesRead};

use crate::buffers::listing_view;
use layout::Document;
use memory::view::View;
use model::Refusal;
use words::NodeSlot;

// Writes the handle of a live slot at index count, and answers the count then.
fn put_live(view: &View<'_>, out: &mut [u64], slot: NodeSlot, count: usize) -> usize
    requires { (slot.0 < slots_made view.now.document) × (count < length out.old) }
    ensures value { result ≡ count + length (live_entry (decoded view.now) slot.0) }
    ensures out_after { out.new ≡ put count (live_entry (decoded view.now) slot.0) out.old }
{
    if view.is_live(slot) {
        let generation = view.generation(slot);
        let index = slot.0;
        out[count] = index as u64 + generation * 4294967296;
        return count + 1;
    }
    count
}

fn write_nodes(view: &View<'_>, out: &mut [u64]) -> usize
    requires { view.now.document.limits.nodes ≤ length out.old }
    ensures value { result ≡ length (live_nodes (decoded view.now)) }
    ensures out_after { out.new ≡ put 0 (live_nodes (decoded view.now)) out.old }
{
    let mut count = 0;
    for i in 0..memory::read::made(view.document) {
        count = put_live(view, out, NodeSlot(i as u32), count);
    }
    count
}

// Test 4 of the reading calls that are lent a list besides, by the lengths of memory and list.
pub fn nodes_ok(d: Document, mem: usize, out: usize) -> bool
    ensures { result ≡ (memory_ok d mem && leb d.limits.nodes out) }
{
    layout::memory_ok(d, mem) && d.limits.nodes <= out
}

// Rules out a handle of a free slot among them, and a word written past the last handle.
pub fn nodes(d: Document, mem: &[u64], out: &mut [u64]) -> Result<usize, Refusal>
    ensures { NodesRead d mem.now out.old out.new result }
{
    let view = listing_view(d, mem, out)?;
    Ok(write_nodes(&view, out))
}
