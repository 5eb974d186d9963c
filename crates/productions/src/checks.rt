// Names and text: what the editing calls accept (names.rs). Each check takes any bytes.
ghost use Rattle.std.specs.Prelude.{◌≡◌, cond, ◌||◌};
ghost use Rattle.chars.specs.Classes.{class_of, is_nc_name};
ghost use Rattle.chars.specs.Checks.{quoted, spells, passed, refused, check_prefix, check_text, check_literal, check_comment, is_xml, check_pi, check_namespace, check_namespace_binding, is_white_space, is_xmlns, on_text, on_texts, of_text, is_utf8};

use chars::utf8::Unit;
use chars::{Fault, Rule};
use scanning::scan::scan;

// Whether the bytes are "xml" in any ASCII case.
fn is_xml(s: &[u8]) -> bool
    ensures { result ≡ is_xml s.now }
{
    s.eq_ignore_ascii_case(b"xml")
}

fn is_reserved_prefix(s: &[u8]) -> bool
    ensures { result ≡ (spells (quoted "xml") s.now || is_xmlns s.now) }
{
    s == b"xml".as_slice() || s == b"xmlns".as_slice()
}

fn ensure(holds: bool, why: Fault) -> Result<(), Fault>
    ensures { result ≡ cond holds passed (refused why) }
{
    if holds { Ok(()) } else { Err(why) }
}

// Whether the bytes are UTF-8.
pub fn is_utf8(s: &[u8]) -> bool
    ensures { result ≡ is_utf8 s.now }
{
    scan(s, Rule::Utf8).is_ok()
}

// Whether the bytes are an NCName: a Name with no colon.
pub fn is_ncname(s: &[u8]) -> bool
    ensures { result ≡ of_text (is_nc_name class_of) s.now }
{
    scan(s, Rule::Name).unwrap_or(false)
}

// A prefix that may be declared: empty, or an NCName that is not reserved.
pub fn check_prefix(prefix: &[u8]) -> Result<(), Fault>
    ensures { result ≡ on_text (check_prefix class_of) prefix.now }
{
    if prefix.is_empty() {
        return Ok(());
    }
    let is_name = scan(prefix, Rule::Name)?;
    ensure(is_name & !is_reserved_prefix(prefix), Fault::InvalidName)
}

// Character data, an attribute value or a URI, stored or not: what some version of XML can write.
pub fn check_text<T: Unit>(text: &[T]) -> Result<(), Fault>
    ensures { result ≡ on_text check_text (T.numbers text.now) }
{
    ensure(scan(text, Rule::Text)?, Fault::InvalidText)
}

// A comment's or processing instruction's body: what may appear literally in XML 1.0.
pub fn check_literal(text: &[u8]) -> Result<(), Fault>
    ensures { result ≡ on_text check_literal text.now }
{
    ensure(scan(text, Rule::Literal)?, Fault::InvalidText)
}

pub fn check_comment(text: &[u8]) -> Result<(), Fault>
    ensures { result ≡ on_text check_comment text.now }
{
    ensure(scan(text, Rule::Comment)?, Fault::InvalidText)
}

// Both are UTF-8, then the target, and the data last.
pub fn check_pi(target: &[u8], data: &[u8]) -> Result<(), Fault>
    ensures { result ≡ on_texts (check_pi class_of) target.now «data».now }
{
    let is_body = scan(data, Rule::PiData)?;
    let is_name = scan(target, Rule::Name)?;
    ensure(is_name & !is_xml(target), Fault::InvalidName)?;
    ensure(is_body, Fault::InvalidText)
}

// A name may use the XML namespace, but never the XMLNS namespace. No namespace is the empty URI.
pub fn check_namespace(uri: &[u8]) -> Result<(), Fault>
    ensures { result ≡ on_text check_namespace uri.now }
{
    check_text(uri)?;
    ensure(
        uri != b"http://www.w3.org/2000/xmlns/".as_slice(),
        Fault::InvalidName,
    )
}

pub fn check_namespace_binding(uri: &[u8]) -> Result<(), Fault>
    ensures { result ≡ on_text check_namespace_binding uri.now }
{
    check_namespace(uri)?;
    ensure(
        uri != b"http://www.w3.org/XML/1998/namespace".as_slice(),
        Fault::InvalidName,
    )
}

// Space, tab and newline only, or nothing: what a text under the Root may be, stored or not.
pub fn is_white_space<T: Unit>(text: &[T]) -> bool
    ensures { result ≡ of_text is_white_space (T.numbers text.now) }
{
    scan(text, Rule::WhiteSpace).unwrap_or(false)
}

// Whether a local name is "xmlns", which no attribute without a namespace may have.
pub fn is_xmlns(local: &[u8]) -> bool
    ensures { result ≡ of_text is_xmlns local.now }
{
    local == b"xmlns".as_slice()
}
