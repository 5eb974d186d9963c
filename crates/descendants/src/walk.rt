// The calls: they test 4 only.
ghost use Rattle.std.specs.Prelude.{◌≡◌};
ghost use Rattle.descendants.specs.Contract.{starts_of, next_of};
ghost use Rattle.records.specs.Handles.{word_of};

use layout::Document;
use memory::view::View;
use model::Refusal;
use records::NodeId;
use steps::position::{Position, start};
use steps::step::step;

// A walk under a node, which is not listed itself: a position to go on from.
#[tactic(auto, unfolding(crate::specs::Contract::starts_of))]
pub fn descendants_of(d: Document, mem: &[u64], id: NodeId) -> Result<Position, Refusal>
    ensures { result ≡ starts_of d mem.now (word_of id) }
{
    View::of(d, mem)?;
    Ok(start(d.limits.nodes, u64::from(id)))
}

// A position at the next node of a walk, or that there is none.
#[tactic(auto, unfolding(crate::specs::Contract::next_of))]
pub fn next(d: Document, mem: &[u64], at: Position) -> Result<Option<Position>, Refusal>
    ensures { result ≡ next_of d mem.now at }
{
    let view = View::of(d, mem)?;
    Ok(step(&view, at))
}
