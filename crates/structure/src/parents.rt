// Rule 3: "Attributes and namespaces have a live element as parent. Others have a live Root or element, or none (detached)."
ghost use Rattle.std.specs.Prelude.{◌≡◌, true, ◌&&◌, length};
ghost use Rattle.model.specs.Doc.{live_slot, resolves, kind_at, parent_in};
ghost use Rattle.model.specs.RulesTest.{parent_holds};
ghost use Rattle.entries.specs.Nodes.{kind_number};
ghost use Rattle.entries.specs.View.{decoded_nodes};
ghost use Rattle.structure.specs.Tests.{owns_number};

use crate::node::{is_child, may_own};
use entries::nodes::{Nodes, kind_of, parent_of};

// Whether a handle resolves, to a node that may be the parent of one of this kind.
fn owner_fits(nodes: &Nodes<'_>, handle: u64, kind: u64) -> bool
    ensures { result ≡ (resolves (decoded_nodes nodes.now.view) handle && owns_number (kind_number (kind_at (decoded_nodes nodes.now.view) handle)) kind) }
{
    nodes.is_current(handle) && may_own(kind_of(&nodes.view, (handle % 4294967296) as usize), kind)
}

// Whether a live slot's parent, or that it has none, fits its kind.
pub fn parent_fits(nodes: &Nodes<'_>, s: usize) -> bool
    requires { live_slot (decoded_nodes nodes.now.view) s ≡ true }
    ensures { result ≡ parent_holds (decoded_nodes nodes.now.view) s (parent_in (decoded_nodes nodes.now.view) s) }
{
    let kind = kind_of(&nodes.view, s);
    match parent_of(&nodes.view, s) {
        None => is_child(kind),
        Some(id) => owner_fits(nodes, u64::from(id), kind),
    }
}
