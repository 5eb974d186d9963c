// What comes before every plan: test 4, which touches no buffer, then the structure check.
ghost use Rattle.std.specs.Prelude.{◌≡◌, length, IfOk};
ghost use Rattle.verdicts.specs.Verdicts.{verdict_number};
ghost use Rattle.editing.specs.Contract.{Ready, admission, scratch_after};

use layout::{Document, buffers_ok};
use memory::view::{Undamaged, View};
use model::Refusal;
use structure::check::check_structure;

// BadBuffers, Damaged, or the undamaged document that the call may go on with. Scratch is all zero after, save after BadBuffers.
#[tactic(auto, unfolding(layout::specs::Layout::buffers_ok, crate::specs::Contract::admission, crate::specs::Contract::scratch_after))]
pub fn admit<'a>(d: Document, mem: &'a [u64], scratch: &mut [u64]) -> Result<Undamaged<'a>, Refusal>
    ensures result_value { verdict_number result ≡ admission d mem.now (length scratch.old) }
    ensures scratch_after { scratch.new ≡ scratch_after d mem.now scratch.old }
    ensures ready { IfOk result (λ doc. (doc.view.document ≡ d) × (doc.view.words.now ≡ mem.now) × Ready d mem.now scratch.new) }
{
    if !buffers_ok(d, mem.len(), scratch.len()) {
        return Err(Refusal::BadBuffers);
    }
    let view = View {
        document: d,
        words: mem,
    };
    if check_structure(&view, scratch) {
        Ok(Undamaged { view })
    } else {
        Err(Refusal::Damaged)
    }
}
