// Lent memory that is edited: the record of its document and all of its words.
ghost use Rattle.std.specs.Prelude.{◌≡◌, true, length};
ghost use Rattle.layout.specs.Layout.{memory_ok};

use crate::view::View;
use layout::Document;

// As many words as the document's limits need. The writers are its methods, which stand by their subject in `write`, `parts` and `block`; each says what it
// leaves, and that this is in the memory that was lent: who lent it knows only then what stands there afterwards.
#[derive(Drop)]
pub struct Lent<'a> {
    pub document: Document,
    pub words: &'a mut [u64],
    pub ghost fits: { memory_ok document (length words.now) ≡ true },
}

impl Lent<'_> {
    // What may be read.
    pub fn view(&self) -> View<'_>
        ensures { (result.document ≡ self.now.document) × (result.words.now ≡ self.now.words.now) }
    {
        View {
            document: self.document,
            words: &self.words[..],
        }
    }

    ghost use Rattle.memory.specs.Lent.{Becomes};

    // Another record of the same limits.
    pub fn put_record(&mut self, document: Document)
        requires { document.limits ≡ self.old.document.limits }
        ensures { Becomes self.old self.new document self.old.words.now }
    {
        self.document = document;
    }
}
