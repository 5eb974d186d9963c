// The plans of the calls that search an element's attributes or namespaces. What was found is answered too, for the call to replace or to remove.
#![tactic(auto, using(verdicts::proofs::Verdicts::refused_first, verdicts::proofs::Verdicts::accepted_first, verdicts::proofs::Verdicts::passed_on, crate::proofs::Planned::element_live, crate::proofs::Planned::declare_live))]

ghost use Rattle.std.specs.Prelude.{◌≡◌, true, IfOk};
ghost use Rattle.records.specs.Handles.{word_of};
ghost use Rattle.names.specs.Expanded.{expanded};
ghost use Rattle.model.specs.Doc.{resolves};
ghost use Rattle.model.specs.Calls.{set-attribute, remove-attribute, declare-namespace, step, find_attribute, find_namespace, set_attribute_found, declare_namespace_found};
ghost use Rattle.memory.specs.Decode.{handle_of};
ghost use Rattle.memory.specs.View.{decoded};
ghost use Rattle.verdicts.specs.Verdicts.{verdict_number, refusal_number};

use crate::lists::{
    check_declare_namespace, check_remove_attribute, new_attribute_fits, new_namespace_fits,
};
use crate::setting::replacing_fits;
use lookup::finding::{find_attribute, find_namespace};
use lookup::views::an_element;
use memory::view::Undamaged;
use model::Refusal;
use names::ExpandedName;
use records::NodeId;
use verdicts::arguments::{check_attribute, three_not_utf8};

// Full: of another value, or of a new attribute.
fn attribute_fits(
    doc: &Undamaged<'_>,
    element: NodeId,
    name: ExpandedName<'_>,
    value: &[u8],
    found: Option<NodeId>,
) -> Result<(), Refusal>
    requires { (resolves (decoded doc.now.view) (word_of element) ≡ true) × (handle_of found ≡ find_attribute (decoded doc.now.view) (word_of element) (expanded name)) }
    ensures { verdict_number result ≡ refusal_number (set_attribute_found (handle_of found) (decoded doc.now.view) (word_of element) (expanded name.entry) value.now).answer }
{
    match found {
        Some(id) => replacing_fits(doc, id, value),
        None => new_attribute_fits(doc, element, name, value),
    }
}

pub fn plan_set_attribute(
    doc: &Undamaged<'_>,
    element: NodeId,
    name: ExpandedName<'_>,
    value: &[u8],
) -> Result<Option<NodeId>, Refusal>
    ensures verdict_value { verdict_number result ≡ refusal_number (step (set-attribute (word_of element) name.entry.namespace.now name.entry.local.now value.now) (decoded doc.now.view)).answer }
    ensures found_value { IfOk result (λ found. handle_of found ≡ find_attribute (decoded doc.now.view) (word_of element) (expanded name.entry)) }
{
    three_not_utf8(name.namespace, name.local, value)?;
    an_element(&doc.view, element)?;
    let found = find_attribute(doc, element, name);
    check_attribute(name, value, found.is_some())?;
    attribute_fits(doc, element, name, value, found)?;
    Ok(found)
}

// Full: of another URI, or of a new namespace node.
fn namespace_fits(
    doc: &Undamaged<'_>,
    element: NodeId,
    prefix: &[u8],
    uri: &[u8],
    found: Option<NodeId>,
) -> Result<(), Refusal>
    requires { (resolves (decoded doc.now.view) (word_of element) ≡ true) × (handle_of found ≡ find_namespace (decoded doc.now.view) (word_of element) prefix.now) }
    ensures { verdict_number result ≡ refusal_number (declare_namespace_found (handle_of found) (decoded doc.now.view) (word_of element) prefix.now uri.now).answer }
{
    match found {
        Some(id) => replacing_fits(doc, id, uri),
        None => new_namespace_fits(doc, element, prefix, uri),
    }
}

pub fn plan_declare_namespace(
    doc: &Undamaged<'_>,
    element: NodeId,
    prefix: &[u8],
    uri: &[u8],
) -> Result<Option<NodeId>, Refusal>
    ensures verdict_value { verdict_number result ≡ refusal_number (step (declare-namespace (word_of element) prefix.now uri.now) (decoded doc.now.view)).answer }
    ensures found_value { IfOk result (λ found. handle_of found ≡ find_namespace (decoded doc.now.view) (word_of element) prefix.now) }
{
    check_declare_namespace(&doc.view, element, prefix, uri)?;
    let found = find_namespace(doc, element, prefix);
    namespace_fits(doc, element, prefix, uri, found)?;
    Ok(found)
}

// Never Full: where there is no such attribute, nothing is done.
pub fn plan_remove_attribute(
    doc: &Undamaged<'_>,
    element: NodeId,
    name: ExpandedName<'_>,
) -> Result<Option<NodeId>, Refusal>
    ensures verdict_value { verdict_number result ≡ refusal_number (step (remove-attribute (word_of element) name.entry.namespace.now name.entry.local.now) (decoded doc.now.view)).answer }
    ensures found_value { IfOk result (λ found. handle_of found ≡ find_attribute (decoded doc.now.view) (word_of element) (expanded name.entry)) }
{
    check_remove_attribute(&doc.view, element, name)?;
    Ok(find_attribute(doc, element, name))
}
