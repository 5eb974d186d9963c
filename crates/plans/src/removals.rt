// The plans of `remove` and `detach`. Neither can be Full.
ghost use Rattle.std.specs.Prelude.{◌≡◌};
ghost use Rattle.records.specs.Handles.{word_of};
ghost use Rattle.model.specs.Calls.{remove, detach, step};
ghost use Rattle.memory.specs.View.{decoded};
ghost use Rattle.verdicts.specs.Verdicts.{verdict_number, refusal_number};

use lookup::views::{a_child, data, root_kind};
use memory::view::View;
use model::Refusal;
use records::NodeId;
use verdicts::verdict::refuse_if;

pub fn plan_remove(view: &View<'_>, node: NodeId) -> Result<(), Refusal>
    ensures { verdict_number result ≡ refusal_number (step (remove (word_of node)) (decoded view.now)).answer }
{
    refuse_if(root_kind(data(view, node)?), Refusal::NotRemovable)
}

pub fn plan_detach(view: &View<'_>, node: NodeId) -> Result<(), Refusal>
    ensures { verdict_number result ≡ refusal_number (step (detach (word_of node)) (decoded view.now)).answer }
{
    a_child(view, node)
}
