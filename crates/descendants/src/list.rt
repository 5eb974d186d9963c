// The whole walk in one call: the handles of the nodes below a zone, into a lent list.
ghost use Rattle.std.specs.Prelude.{◌≡◌, true, ◌≤◌, length};
ghost use Rattle.words.specs.Parts.{put};
ghost use Rattle.records.specs.Handles.{word_of};
ghost use Rattle.model.specs.Doc.{resolves};
ghost use Rattle.memory.specs.View.{decoded};
ghost use Rattle.descendants.specs.Walking.{walked};
ghost use Rattle.descendants.specs.Contract.{count_below, written_below};

use layout::Document;
use memory::view::View;
use model::Refusal;
use reading::buffers::listing_view;
use records::NodeId;
use steps::position::start;
use steps::step::successor;

// Of a node that resolves; so does each node listed, and no step tests the one before it again.
fn write_live(view: &View<'_>, zone: u64, out: &mut [u64]) -> usize
    requires { (view.now.document.limits.nodes ≤ length out.old) × (resolves (decoded view.now) zone ≡ true) }
    ensures value { result ≡ length (walked (decoded view.now) zone) }
    ensures out_after { out.new ≡ put 0 (walked (decoded view.now) zone) out.old }
{
    let nodes = view.document.limits.nodes;
    let mut at = start(nodes, zone);
    for count in 0..nodes {
        let Some(next) = successor(view, at, NodeId::from(at.node)) else {
            return count;
        };
        out[count] = next.node;
        at = next;
    }
    nodes
}

fn write_below(view: &View<'_>, id: NodeId, out: &mut [u64]) -> usize
    requires { view.now.document.limits.nodes ≤ length out.old }
    ensures value { result ≡ length (walked (decoded view.now) (word_of id)) }
    ensures out_after { out.new ≡ put 0 (walked (decoded view.now) (word_of id)) out.old }
{
    if view.resolves(id) {
        write_live(view, u64::from(id), out)
    } else {
        0
    }
}

// Rules out a word written past the last handle, and the node itself among them.
pub fn list_below(d: Document, mem: &[u64], id: NodeId, out: &mut [u64]) -> Result<usize, Refusal>
    ensures { (result ≡ count_below d mem.now (word_of id) out.old) × (out.new ≡ written_below d mem.now (word_of id) out.old) }
{
    let view = listing_view(d, mem, out)?;
    Ok(write_below(&view, id, out))
}
