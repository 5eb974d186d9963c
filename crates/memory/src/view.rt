// Lent memory that holds a document: the words that test 4 lets be read, and those that the structure check passed too.
ghost use Rattle.std.specs.Prelude.{◌≡◌, true, false, MatchResult, length};
ghost use Rattle.model.specs.RulesTest.{rules_hold};
ghost use Rattle.layout.specs.Layout.{memory_ok};
ghost use Rattle.memory.specs.Decode.{decode};

use layout::Document;
use model::Refusal;

// The document of a record and the words that it lies in, as many as its limits need. What they show is read by its methods, which stand by their subject in
// `read`, `fields`, `stored`, `parts` and `block`.
#[derive(Clone, Copy)]
pub struct View<'a> {
    pub document: Document,
    pub words: &'a [u64],
    pub ghost fits: { memory_ok document (length words.now) ≡ true },
}

impl<'a> View<'a> {
    // Test 4 of the reading calls.
    pub fn of(document: Document, words: &'a [u64]) -> Result<View<'a>, Refusal>
        ensures { MatchResult result (λ view. (memory_ok document (length words.now) ≡ true) × (view.document ≡ document) × (view.words.now ≡ words.now)) (λ why. (memory_ok document (length words.now) ≡ false) × (why ≡ Refusal.BadBuffers)) }
    {
        if layout::memory_ok(document, words.len()) {
            Ok(View { document, words })
        } else {
            Err(Refusal::BadBuffers)
        }
    }
}

// A view of a document that keeps the structure rules: what every plan may take for given.
#[derive(Clone, Copy)]
pub struct Undamaged<'a> {
    pub view: View<'a>,
    pub ghost rules: { rules_hold (decode view.document view.words.now) ≡ true },
}
