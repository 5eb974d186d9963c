// Rule 8's part in the pass over the slots: text slots are counted in marks, one for each that was made.
ghost use Rattle.std.specs.Prelude.{◌≡◌, true, ◌+◌, ◌≤◌, length, replicate};
ghost use Rattle.words.specs.Parts.{put};
ghost use Rattle.model.specs.Doc.{limits_ok, live_slot};
ghost use Rattle.model.specs.Rules.{held_in};
ghost use Rattle.layout.specs.Layout.{limits_of, scratch_words};
ghost use Rattle.memory.specs.Decode.{counts_within, slots_made};
ghost use Rattle.entries.specs.View.{decoded_nodes};
ghost use Rattle.entries.specs.Marks.{Counted, gathered};
ghost use Rattle.entries.specs.Fields.{pool_holds};
ghost use Rattle.structure.specs.Scratch.{text_marks_at};
ghost use Rattle.structure.specs.Turns.{text_marks, Fields};

use entries::node_texts::{check_texts, count_node};
use layout::{Document, Limits};
use memory::view::View;

// Where the marks of the text slots lie in scratch: behind those of the arenas.
#[tactic(auto, unfolding(model::specs::Doc::limits_ok, crate::specs::Scratch::text_marks_at))]
fn marks_at(l: Limits) -> usize
    requires { limits_ok (limits_of l) ≡ true }
    ensures { result ≡ text_marks_at (limits_of l) }
{
    4 * l.nodes + l.children + l.attributes + l.namespaces
}

// Makes the marks of the text slots made 0.
pub fn clear_texts(d: Document, scratch: &mut [u64])
    requires { (limits_ok (limits_of d.limits) ≡ true) × (text_marks_at (limits_of d.limits) + d.counts.texts ≤ length scratch.old) }
    ensures { scratch.new ≡ put (text_marks_at (limits_of d.limits)) (replicate d.counts.texts 0) scratch.old }
{
    let at = marks_at(d.limits);
    let end = at + d.counts.texts;
    scratch[at..end].fill(0);
}

// The fields of a live slot are tested, and its text slots counted.
#[tactic(auto, using(layout::proofs::Sizes::limits_within), unfolding(crate::specs::Scratch::text_marks_at, layout::specs::Layout::scratch_words))]
pub fn count_fields(view: &View<'_>, s: usize, scratch: &mut [u64]) -> bool
    requires { (scratch_words (limits_of view.now.document.limits) ≤ length scratch.old) × (view.now.document.counts.texts ≤ view.now.document.limits.texts) × (live_slot (decoded_nodes view.now) s ≡ true) }
    ensures { Fields view.now.document view.now.words.now s scratch.old scratch.new result }
{
    let at = marks_at(view.document.limits);
    let end = at + view.document.counts.texts;
    count_node(view, s, &mut scratch[at..end])
}

// Whether what rule 8 asks besides the fields holds, where those are counted.
#[tactic(auto, using(layout::proofs::Sizes::limits_within), unfolding(crate::specs::Scratch::text_marks_at, layout::specs::Layout::scratch_words))]
pub fn check_pool(view: &View<'_>, scratch: &mut [u64]) -> bool
    requires scratch_fits { scratch_words (limits_of view.now.document.limits) ≤ length scratch.old }
    requires counts { counts_within (limits_of view.now.document.limits) view.now.document.counts ≡ true }
    requires counted { Counted view.now.document.counts.texts (gathered (held_in (decoded_nodes view.now)) (slots_made view.now.document)) (text_marks view.now.document scratch.old) }
    ensures { result ≡ pool_holds view.now.document view.now.words.now }
{
    let at = marks_at(view.document.limits);
    let end = at + view.document.counts.texts;
    check_texts(view, &mut scratch[at..end])
}
