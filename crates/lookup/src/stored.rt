// The bytes of stored texts and names of a document that keeps the rules, one a word, as parts of the memory.
ghost use Rattle.std.specs.Prelude.{◌≡◌};
ghost use Rattle.names.specs.Words.{part_of};
ghost use Rattle.model.specs.Doc.{bytes_at, pair_at};
ghost use Rattle.memory.specs.Decode.{slot_of};
ghost use Rattle.memory.specs.View.{decoded};

use memory::view::Undamaged;
use names::NamePart;
use words::{NameId, TextSlot};

pub fn text_bytes<'a>(doc: &Undamaged<'a>, text: Option<TextSlot>) -> &'a [u64]
    ensures { result.now ≡ bytes_at (decoded doc.now.view) (slot_of text) }
{
    doc.view.text_bytes(text)
}

pub fn name_bytes<'a>(doc: &Undamaged<'a>, number: NameId, part: NamePart) -> &'a [u64]
    ensures { result.now ≡ part_of part (pair_at (decoded doc.now.view) number.0) }
{
    doc.view.name_bytes(number, part)
}
