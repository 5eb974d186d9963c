// The name of a number, and the bytes of its parts.
ghost use Rattle.std.specs.Prelude.{◌≡◌};
ghost use Rattle.names.specs.Words.{part_number};
ghost use Rattle.model.specs.Calls.{name_of};
ghost use Rattle.reading.specs.Answers.{of_name, name_bytes};
ghost use Rattle.reading.specs.Contract.{reads};

use layout::Document;
use memory::view::View;
use model::Refusal;
use names::NamePart;
use words::NameId;

// Rules out a name for a number from the name count on, and one whose bytes are not all in the table.
pub fn name(d: Document, mem: &[u64], number: NameId) -> Result<Option<NameId>, Refusal>
    ensures { of_name d mem.now result ≡ reads (name_of number.0) d mem.now }
{
    let view = View::of(d, mem)?;
    Ok(view.has_name(number).then_some(number))
}

// A part of a name, one byte a word, as a part of the memory. Rules out the other part, and bytes past those used.
pub fn name_bytes(d: Document, mem: &[u64], number: NameId, part: NamePart) -> &[u64]
    ensures { result.now ≡ name_bytes d mem.now number.0 (part_number part) }
{
    match View::of(d, mem) {
        Ok(view) => view.name_bytes(number, part),
        Err(_) => &[],
    }
}

// The namespace of a name. Rules out its local part, and bytes past those used.
pub fn namespace_bytes(d: Document, mem: &[u64], number: NameId) -> &[u64]
    ensures { result.now ≡ name_bytes d mem.now number.0 0 }
{
    name_bytes(d, mem, number, NamePart::Namespace)
}

// Its local part. Rules out its namespace, and bytes past those used.
pub fn local_bytes(d: Document, mem: &[u64], number: NameId) -> &[u64]
    ensures { result.now ≡ name_bytes d mem.now number.0 1 }
{
    name_bytes(d, mem, number, NamePart::Local)
}
