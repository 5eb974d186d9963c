// Test 4 of the reading calls that are lent a list besides.
ghost use Rattle.std.specs.Prelude.{◌≡◌, true, false, MatchResult};
ghost use Rattle.reading.specs.Contract.{nodes_ok};

use crate::nodes::nodes_ok;
use layout::Document;
use memory::view::View;
use model::Refusal;

// The view of memory that holds the record's document, where the list has room for every node.
pub fn listing_view<'a>(d: Document, mem: &'a [u64], list: &[u64]) -> Result<View<'a>, Refusal>
    ensures { MatchResult result (λ view. (nodes_ok d mem.now list.now ≡ true) × (view.document ≡ d) × (view.words.now ≡ mem.now)) (λ why. (nodes_ok d mem.now list.now ≡ false) × (why ≡ Refusal.BadBuffers)) }
{
    if nodes_ok(d, mem.len(), list.len()) {
        Ok(View {
            document: d,
            words: mem,
        })
    } else {
        Err(Refusal::BadBuffers)
    }
}
