// What byte arguments may be.
#![tactic(auto, using(crate::proofs::Verdicts::refused_first, crate::proofs::Verdicts::accepted_first, crate::proofs::Verdicts::passed_on), unfolding(model::specs::Arguments::is_utf8, model::specs::Arguments::name_check, model::specs::Arguments::namespace_check, model::specs::Arguments::binding_check, model::specs::Arguments::prefix_check, model::specs::Arguments::text_check, model::specs::Arguments::space_only, model::specs::Arguments::is_xmlns))]

ghost use Rattle.std.specs.Prelude.{◌≡◌, [], ◌∷◌, not, ◌&&◌, cond};
ghost use Rattle.model.specs.Arguments.{refuse_if, first, not_utf8, name_check, namespace_check, text_check, space_only, is_xmlns};
ghost use Rattle.model.specs.Checks.{text_under, is_empty, undeclares_prefix, declaration_check};
ghost use Rattle.verdicts.specs.Verdicts.{verdict_number};

use crate::verdict::refuse_if;
use chars::utf8::Unit;
use model::Refusal;
use names::ExpandedName;

pub fn not_utf8(text: &[u8]) -> Result<(), Refusal>
    ensures { verdict_number result ≡ not_utf8 (text.now ∷ []) }
{
    refuse_if(!productions::checks::is_utf8(text), Refusal::NotUtf8)
}

pub fn two_not_utf8(a: &[u8], b: &[u8]) -> Result<(), Refusal>
    ensures { verdict_number result ≡ not_utf8 (a.now ∷ b.now ∷ []) }
{
    not_utf8(a)?;
    not_utf8(b)
}

pub fn three_not_utf8(a: &[u8], b: &[u8], c: &[u8]) -> Result<(), Refusal>
    ensures { verdict_number result ≡ not_utf8 (a.now ∷ b.now ∷ c.now ∷ []) }
{
    not_utf8(a)?;
    two_not_utf8(b, c)
}

// A text that the Root may not hold, given or stored.
pub fn not_space<T: Unit>(under_root: bool, text: &[T]) -> Result<(), Refusal>
    ensures { verdict_number result ≡ refuse_if (under_root && not (space_only (T.numbers text.now))) 3 }
{
    refuse_if(
        under_root && !productions::checks::is_white_space(text),
        Refusal::InvalidText,
    )
}

// Text under the Root is space, tab, newline only, or empty.
pub fn text_under(under_root: bool, text: &[u8]) -> Result<(), Refusal>
    ensures { verdict_number result ≡ text_under under_root text.now }
{
    productions::checks::check_text(text)?;
    not_space(under_root, text)
}

// The local part, then the namespace.
pub fn check_name(name: ExpandedName<'_>) -> Result<(), Refusal>
    ensures { verdict_number result ≡ first (name_check name.entry.local.now) (namespace_check name.entry.namespace.now) }
{
    refuse_if(
        !productions::checks::is_ncname(name.local),
        Refusal::InvalidName,
    )?;
    productions::checks::check_namespace(name.namespace).map_err(Refusal::from)
}

// Only the default namespace may be undone.
fn not_undeclared(prefix: &[u8], uri: &[u8]) -> Result<(), Refusal>
    ensures { verdict_number result ≡ refuse_if (undeclares_prefix prefix.now uri.now) 2 }
{
    refuse_if(!prefix.is_empty() && uri.is_empty(), Refusal::InvalidName)
}

// A prefix, then the URI that it is bound to.
pub fn check_declaration(prefix: &[u8], uri: &[u8]) -> Result<(), Refusal>
    ensures { verdict_number result ≡ declaration_check prefix.now uri.now }
{
    productions::checks::check_prefix(prefix)?;
    productions::checks::check_namespace_binding(uri)?;
    not_undeclared(prefix, uri)
}

// No attribute without a namespace is called xmlns.
fn not_xmlns(name: ExpandedName<'_>) -> Result<(), Refusal>
    ensures { verdict_number result ≡ refuse_if (is_empty name.entry.namespace.now && is_xmlns name.entry.local.now) 2 }
{
    refuse_if(
        name.namespace.is_empty() && productions::checks::is_xmlns(name.local),
        Refusal::InvalidName,
    )
}

// The value, then the local part of a new attribute.
fn check_value(value: &[u8], local: &[u8], found: bool) -> Result<(), Refusal>
    ensures { verdict_number result ≡ first (text_check value.now) (cond found 0 (name_check local.now)) }
{
    productions::checks::check_text(value)?;
    refuse_if(
        !found && !productions::checks::is_ncname(local),
        Refusal::InvalidName,
    )
}

// The arguments of `set_attribute`: the name is tested last.
pub fn check_attribute(name: ExpandedName<'_>, value: &[u8], found: bool) -> Result<(), Refusal>
    ensures { verdict_number result ≡ first (namespace_check name.entry.namespace.now) (first (refuse_if (is_empty name.entry.namespace.now && is_xmlns name.entry.local.now) 2) (first (text_check value.now) (cond found 0 (name_check name.entry.local.now)))) }
{
    productions::checks::check_namespace(name.namespace)?;
    not_xmlns(name)?;
    check_value(value, name.local, found)
}
