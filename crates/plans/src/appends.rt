// The plans of the calls that append a child.
#![tactic(auto, using(verdicts::proofs::Verdicts::refused_first, verdicts::proofs::Verdicts::accepted_first, verdicts::proofs::Verdicts::passed_on, crate::proofs::Appended::text_parent, crate::proofs::Appended::comment_parent, crate::proofs::Appended::pi_parent, crate::proofs::Appended::element_parent), unfolding(model::specs::Arguments::comment_check, model::specs::Arguments::instruction_check))]

ghost use Rattle.std.specs.Prelude.{◌≡◌, true, ◌&&◌};
ghost use Rattle.records.specs.Handles.{word_of};
ghost use Rattle.model.specs.Kinds.{children, is_root};
ghost use Rattle.model.specs.Doc.{resolves, view_at, any_option};
ghost use Rattle.model.specs.Arguments.{refuse_if};
ghost use Rattle.model.specs.Checks.{check_append_text, check_append_comment, check_append_pi, check_append_element};
ghost use Rattle.names.specs.Expanded.{expanded};
ghost use Rattle.model.specs.Calls.{append-element, append-text, append-comment, append-pi, step, full_unless, two_fit, node_fits, name_fits_in, root_taken};
ghost use Rattle.memory.specs.View.{decoded};
ghost use Rattle.verdicts.specs.Verdicts.{verdict_number, refusal_number};

use layout::Arena;
use lookup::root::root_taken;
use lookup::views::{container, is_root};
use memory::view::{Undamaged, View};
use model::Refusal;
use names::ExpandedName;
use records::NodeId;
use room::full::{name_fits, node_fits, text_node_fits, two_fit};
use verdicts::arguments::{check_name, not_utf8, text_under, two_not_utf8};
use verdicts::verdict::{full_unless, refuse_if};

// The text, then the container, then the text again by the rule of its parent.
fn check_append_text(view: &View<'_>, parent: NodeId, text: &[u8]) -> Result<(), Refusal>
    ensures { verdict_number result ≡ check_append_text text.now (view_at (decoded view.now) (word_of parent)) }
{
    not_utf8(text)?;
    container(view, parent)?;
    text_under(is_root(view, parent), text)
}

fn check_append_comment(view: &View<'_>, parent: NodeId, text: &[u8]) -> Result<(), Refusal>
    ensures { verdict_number result ≡ check_append_comment text.now (view_at (decoded view.now) (word_of parent)) }
{
    not_utf8(text)?;
    container(view, parent)?;
    productions::checks::check_comment(text).map_err(Refusal::from)
}

pub fn plan_append_text(doc: &Undamaged<'_>, parent: NodeId, text: &[u8]) -> Result<(), Refusal>
    ensures { verdict_number result ≡ refusal_number (step (append-text (word_of parent) text.now) (decoded doc.now.view)).answer }
{
    check_append_text(&doc.view, parent, text)?;
    text_node_fits(doc, Arena::Children, parent, text)
}

pub fn plan_append_comment(doc: &Undamaged<'_>, parent: NodeId, text: &[u8]) -> Result<(), Refusal>
    ensures { verdict_number result ≡ refusal_number (step (append-comment (word_of parent) text.now) (decoded doc.now.view)).answer }
{
    check_append_comment(&doc.view, parent, text)?;
    text_node_fits(doc, Arena::Children, parent, text)
}

fn check_append_pi(
    view: &View<'_>,
    parent: NodeId,
    target: &[u8],
    content: &[u8],
) -> Result<(), Refusal>
    ensures { verdict_number result ≡ check_append_pi target.now content.now (view_at (decoded view.now) (word_of parent)) }
{
    two_not_utf8(target, content)?;
    container(view, parent)?;
    productions::checks::check_pi(target, content).map_err(Refusal::from)
}

// Full, of a new child with two texts.
fn pi_fits(
    doc: &Undamaged<'_>,
    parent: NodeId,
    target: &[u8],
    content: &[u8],
) -> Result<(), Refusal>
    requires { resolves (decoded doc.now.view) (word_of parent) ≡ true }
    ensures { verdict_number result ≡ full_unless (two_fit (decoded doc.now.view) target.now content.now && node_fits (decoded doc.now.view) children (word_of parent)) }
{
    full_unless(two_fit(doc, target, content) && node_fits(doc, Arena::Children, parent))
}

pub fn plan_append_pi(
    doc: &Undamaged<'_>,
    parent: NodeId,
    target: &[u8],
    content: &[u8],
) -> Result<(), Refusal>
    ensures { verdict_number result ≡ refusal_number (step (append-pi (word_of parent) target.now content.now) (decoded doc.now.view)).answer }
{
    check_append_pi(&doc.view, parent, target, content)?;
    pi_fits(doc, parent, target, content)
}

// A second element under the Root.
fn second_root(doc: &Undamaged<'_>, parent: NodeId) -> Result<(), Refusal>
    ensures { verdict_number result ≡ refuse_if (any_option is_root (view_at (decoded doc.now.view) (word_of parent)) && root_taken (decoded doc.now.view) None) 12 }
{
    refuse_if(
        is_root(&doc.view, parent) && root_taken(doc),
        Refusal::RootElementExists,
    )
}

fn check_append_element(
    doc: &Undamaged<'_>,
    parent: NodeId,
    name: ExpandedName<'_>,
) -> Result<(), Refusal>
    ensures { verdict_number result ≡ check_append_element name.entry.namespace.now name.entry.local.now (view_at (decoded doc.now.view) (word_of parent)) (root_taken (decoded doc.now.view) None) }
{
    two_not_utf8(name.namespace, name.local)?;
    container(&doc.view, parent)?;
    second_root(doc, parent)?;
    check_name(name)
}

// Full, of a new element.
fn element_fits(doc: &Undamaged<'_>, parent: NodeId, name: ExpandedName<'_>) -> Result<(), Refusal>
    requires { resolves (decoded doc.now.view) (word_of parent) ≡ true }
    ensures { verdict_number result ≡ full_unless (name_fits_in (decoded doc.now.view) (expanded name.entry) && node_fits (decoded doc.now.view) children (word_of parent)) }
{
    full_unless(name_fits(doc, name) && node_fits(doc, Arena::Children, parent))
}

pub fn plan_append_element(
    doc: &Undamaged<'_>,
    parent: NodeId,
    name: ExpandedName<'_>,
) -> Result<(), Refusal>
    ensures { verdict_number result ≡ refusal_number (step (append-element (word_of parent) name.entry.namespace.now name.entry.local.now) (decoded doc.now.view)).answer }
{
    check_append_element(doc, parent, name)?;
    element_fits(doc, parent, name)
}
