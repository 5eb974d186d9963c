// What the checks of a call see of a handle: whether it resolves, and the kind of its node.
#![tactic(auto, using(crate::proofs::Viewed::root_seen, crate::proofs::Viewed::element_seen, crate::proofs::Viewed::container_seen, crate::proofs::Viewed::an_element_seen, crate::proofs::Viewed::child_seen, crate::proofs::Viewed::text_seen))]

ghost use Rattle.std.specs.Prelude.{◌≡◌, not, MatchResult};
ghost use Rattle.records.specs.Handles.{word_of};
ghost use Rattle.model.specs.Kinds.{is_container, is_element, is_root, child_kind, text_of, map_kind};
ghost use Rattle.model.specs.Doc.{is_none, any_option, pair_at, bytes_at, view_at};
ghost use Rattle.model.specs.Arguments.{refuse_if};
ghost use Rattle.model.specs.Checks.{container, an_element, a_child, a_text};
ghost use Rattle.memory.specs.Decode.{kind_of};
ghost use Rattle.memory.specs.View.{decoded};
ghost use Rattle.verdicts.specs.Verdicts.{verdict_number};

use memory::view::View;
use model::Refusal;
use records::{NodeData, NodeId};
use verdicts::verdict::refuse_if;

pub fn root_kind(data: NodeData) -> bool
    ensures { result ≡ is_root (kind_of «data») }
{
    matches!(data, NodeData::Root)
}

pub fn element_kind(data: NodeData) -> bool
    ensures { result ≡ is_element (kind_of «data») }
{
    matches!(data, NodeData::Element { .. })
}

// The Root and elements hold children.
fn container_kind(data: NodeData) -> Result<(), Refusal>
    ensures { verdict_number result ≡ refuse_if (not (is_container (kind_of «data»))) 8 }
{
    match data {
        NodeData::Root | NodeData::Element { .. } => Ok(()),
        _ => Err(Refusal::NotAContainer),
    }
}

// What keeps a node from being moved or detached.
fn child_kind(data: NodeData) -> Result<(), Refusal>
    ensures { verdict_number result ≡ child_kind (kind_of «data») }
{
    match data {
        NodeData::Root => Err(Refusal::NotRemovable),
        NodeData::Attr { .. } | NodeData::Namespace { .. } => Err(Refusal::NotAChild),
        _ => Ok(()),
    }
}

fn text_kind(data: NodeData) -> Result<(), Refusal>
    ensures { verdict_number result ≡ refuse_if (is_none (text_of (kind_of «data»))) 10 }
{
    match data {
        NodeData::Text(_) => Ok(()),
        _ => Err(Refusal::NotText),
    }
}

// What the node of a handle is, for every handle: the checks see no more of it.
pub fn data(view: &View<'_>, id: NodeId) -> Result<NodeData, Refusal>
    ensures { MatchResult result (λ found. view_at (decoded view.now) (word_of id) ≡ Some (map_kind (pair_at (decoded view.now)) (bytes_at (decoded view.now)) (kind_of found))) (λ why. (view_at (decoded view.now) (word_of id) ≡ None) × (why ≡ Refusal.Stale)) }
{
    view.resolve(id).map(|node| node.data).ok_or(Refusal::Stale)
}

pub fn is_root(view: &View<'_>, id: NodeId) -> bool
    ensures { result ≡ any_option is_root (view_at (decoded view.now) (word_of id)) }
{
    data(view, id).is_ok_and(root_kind)
}

pub fn is_element(view: &View<'_>, id: NodeId) -> bool
    ensures { result ≡ any_option is_element (view_at (decoded view.now) (word_of id)) }
{
    data(view, id).is_ok_and(element_kind)
}

// 6 and 8.
pub fn container(view: &View<'_>, id: NodeId) -> Result<(), Refusal>
    ensures { verdict_number result ≡ container (view_at (decoded view.now) (word_of id)) }
{
    container_kind(data(view, id)?)
}

// 6 and 7.
pub fn an_element(view: &View<'_>, id: NodeId) -> Result<(), Refusal>
    ensures { verdict_number result ≡ an_element (view_at (decoded view.now) (word_of id)) }
{
    refuse_if(!element_kind(data(view, id)?), Refusal::NotAnElement)
}

// 6, 9 and 11.
pub fn a_child(view: &View<'_>, id: NodeId) -> Result<(), Refusal>
    ensures { verdict_number result ≡ a_child (view_at (decoded view.now) (word_of id)) }
{
    child_kind(data(view, id)?)
}

// 6 and 10.
pub fn a_text(view: &View<'_>, id: NodeId) -> Result<(), Refusal>
    ensures { verdict_number result ≡ a_text (view_at (decoded view.now) (word_of id)) }
{
    text_kind(data(view, id)?)
}
