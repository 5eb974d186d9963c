// Rule 7: "The Root has at most one element child."
ghost use Rattle.std.specs.Prelude.{◌≡◌, true, length};
ghost use Rattle.words.specs.Lists.{all, count_of};
ghost use Rattle.model.specs.Kinds.{children};
ghost use Rattle.model.specs.Doc.{resolves};
ghost use Rattle.model.specs.RulesTest.{counts_and_fields_hold, entry_holds, entries_hold, blocks_hold, one_root_element_holds};
ghost use Rattle.entries.specs.View.{decoded_nodes};
ghost use Rattle.structure.specs.Tests.{element_test};

use entries::nodes::{block_of, kind_of};
use layout::Arena;
use memory::view::View;
use records::kind::ELEMENT;

// Whether a handle that resolves is an element's.
fn shows_element(view: &View<'_>, handle: u64) -> bool
    requires { resolves (decoded_nodes view.now) handle ≡ true }
    ensures { result ≡ element_test (decoded_nodes view.now) handle }
{
    kind_of(view, (handle % 4294967296) as usize) == ELEMENT
}

// How many of the Root's children are elements, where rule 4 holds of them.
fn count_elements(view: &View<'_>, entries: &[u64]) -> usize
    requires { all (entry_holds (decoded_nodes view.now) children 0) entries.now ≡ true }
    ensures { result ≡ count_of (element_test (decoded_nodes view.now)) entries.now }
{
    let mut count = 0;
    for &word in entries {
        if shows_element(view, word) {
            count += 1;
        }
    }
    count
}

// Whether rule 7 holds, where rules 1, 4 and 5 do.
pub fn check_root_element(view: &View<'_>) -> bool
    requires { (counts_and_fields_hold (decoded_nodes view.now) ≡ true) × (blocks_hold (decoded_nodes view.now) ≡ true) × (entries_hold (decoded_nodes view.now) ≡ true) }
    ensures { result ≡ one_root_element_holds (decoded_nodes view.now) }
{
    let block = block_of(view, Arena::Children, 0);
    let entries = view.block_words(Arena::Children, block);
    count_elements(view, entries) <= 1
}
