// Rule 2: "The free list holds every odd-generation slot once and no other."
ghost use Rattle.std.specs.Prelude.{◌≡◌, true, ◌≤◌, length};
ghost use Rattle.model.specs.RulesTest.{free_list_holds};
ghost use Rattle.memory.specs.Decode.{slots_made};
ghost use Rattle.entries.specs.View.{decoded_nodes};

use memory::read::{free, made};
use memory::view::View;

// Whether rule 2 holds. Marks has a word for each slot made.
pub fn check_free_list(view: &View<'_>, marks: &mut [u64]) -> bool
    requires { slots_made view.now.document ≤ length marks.old }
    ensures { result ≡ free_list_holds (decoded_nodes view.now) }
{
    marks.fill(0);
    let d = view.document;
    view.slots().check_free(made(d), free(d), marks)
}
