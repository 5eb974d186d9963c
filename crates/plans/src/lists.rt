// The checks and Full of the calls on an element's attributes and namespaces.
#![tactic(auto, using(verdicts::proofs::Verdicts::refused_first, verdicts::proofs::Verdicts::accepted_first, verdicts::proofs::Verdicts::passed_on, crate::proofs::Planned::full_both))]

ghost use Rattle.std.specs.Prelude.{◌≡◌, true, ◌&&◌, length};
ghost use Rattle.records.specs.Handles.{word_of};
ghost use Rattle.texts.specs.Pool.{slots_for};
ghost use Rattle.names.specs.Expanded.{expanded};
ghost use Rattle.model.specs.Kinds.{attributes, namespaces};
ghost use Rattle.model.specs.Doc.{resolves, view_at};
ghost use Rattle.model.specs.Checks.{check_remove_attribute, check_declare_namespace};
ghost use Rattle.model.specs.Calls.{full_unless, text_fits, two_fit, name_fits_in, node_fits};
ghost use Rattle.memory.specs.View.{decoded};
ghost use Rattle.verdicts.specs.Verdicts.{verdict_number};

use layout::Arena;
use lookup::views::an_element;
use memory::view::{Undamaged, View};
use model::Refusal;
use names::ExpandedName;
use records::NodeId;
use room::full::{name_fits, node_fits, text_node_fits, two_fit};
use verdicts::arguments::{check_declaration, two_not_utf8};
use verdicts::verdict::full_unless;

pub fn check_remove_attribute(
    view: &View<'_>,
    element: NodeId,
    name: ExpandedName<'_>,
) -> Result<(), Refusal>
    ensures { verdict_number result ≡ check_remove_attribute name.entry.namespace.now name.entry.local.now (view_at (decoded view.now) (word_of element)) }
{
    two_not_utf8(name.namespace, name.local)?;
    an_element(view, element)
}

pub fn check_declare_namespace(
    view: &View<'_>,
    element: NodeId,
    prefix: &[u8],
    uri: &[u8],
) -> Result<(), Refusal>
    ensures { verdict_number result ≡ check_declare_namespace prefix.now uri.now (view_at (decoded view.now) (word_of element)) }
{
    two_not_utf8(prefix, uri)?;
    an_element(view, element)?;
    check_declaration(prefix, uri)
}

// Full, of a new attribute.
pub fn new_attribute_fits(
    doc: &Undamaged<'_>,
    element: NodeId,
    name: ExpandedName<'_>,
    value: &[u8],
) -> Result<(), Refusal>
    requires { resolves (decoded doc.now.view) (word_of element) ≡ true }
    ensures { verdict_number result ≡ full_unless (name_fits_in (decoded doc.now.view) (expanded name.entry) && (text_fits (decoded doc.now.view) (slots_for value.now) 0 (length value.now) && node_fits (decoded doc.now.view) attributes (word_of element))) }
{
    full_unless(name_fits(doc, name))?;
    text_node_fits(doc, Arena::Attributes, element, value)
}

// Full, of a new namespace node.
pub fn new_namespace_fits(
    doc: &Undamaged<'_>,
    element: NodeId,
    prefix: &[u8],
    uri: &[u8],
) -> Result<(), Refusal>
    requires { resolves (decoded doc.now.view) (word_of element) ≡ true }
    ensures { verdict_number result ≡ full_unless (two_fit (decoded doc.now.view) prefix.now uri.now && node_fits (decoded doc.now.view) namespaces (word_of element)) }
{
    full_unless(two_fit(doc, prefix, uri) && node_fits(doc, Arena::Namespaces, element))
}
