// Rule 8: the fields of a live node are tested and its text slots counted, slot by slot; behind them the lengths of texts and names add up, as their layers say, and
// with those of the free text list each text slot is to have been counted once.
ghost use Rattle.std.specs.Prelude.{◌≡◌, true, [], ◌∷◌, ◌≤◌, length, take, eqb};
ghost use Rattle.std.specs.List.{list_all};
ghost use Rattle.words.specs.Parts.{part};
ghost use Rattle.texts.specs.Words.{pool_ok, Markable, marked};
ghost use Rattle.names.specs.Words.{table_ok};
ghost use Rattle.model.specs.Doc.{live_slot, kind_in};
ghost use Rattle.model.specs.Rules.{held_in, slots_held};
ghost use Rattle.layout.specs.Layout.{limits_of};
ghost use Rattle.memory.specs.Decode.{slot_of, slots_made, counts_within, text_limits, text_counts, name_limits, name_counts, texts_part, names_part};
ghost use Rattle.entries.specs.View.{decoded_nodes};
ghost use Rattle.entries.specs.Marks.{Counted, Pass, gathered};
ghost use Rattle.entries.specs.Fields.{slots_inside, names_inside, fields_hold, slots_once, pool_holds};

use crate::nodes::{count, first_text, kind_of, name_of, second_text};
use memory::view::View;
use records::kind::{ATTR, ELEMENT};
use words::TextSlot;

// Whether the name number of an element or an attribute is below the name count.
fn names_inside(view: &View<'_>, s: usize) -> bool
    requires { live_slot (decoded_nodes view.now) s ≡ true }
    ensures { result ≡ names_inside view.now.document.counts.names (kind_in (decoded_nodes view.now) s) }
{
    match kind_of(view, s) {
        ELEMENT | ATTR => name_of(view, s) < view.document.counts.names as u64,
        _ => true,
    }
}

// A text field is tested and counted.
fn count_text(text: Option<TextSlot>, texts: usize, marks: &mut [u64]) -> bool
    requires { texts ≤ length marks.old }
    ensures { Pass (length marks.old) (slots_inside texts (slots_held (slot_of text ∷ []))) (slots_held (slot_of text ∷ [])) marks.old marks.new result }
{
    match text {
        None => true,
        Some(slot) => {
            let s = slot.0 as usize;
            if s >= texts {
                return false;
            }
            count(marks, s);
            true
        }
    }
}

fn count_texts(
    first: Option<TextSlot>,
    second: Option<TextSlot>,
    texts: usize,
    marks: &mut [u64],
) -> bool
    requires { texts ≤ length marks.old }
    ensures { Pass (length marks.old) (slots_inside texts (slots_held (slot_of first ∷ slot_of second ∷ []))) (slots_held (slot_of first ∷ slot_of second ∷ [])) marks.old marks.new result }
{
    count_text(first, texts, marks) && count_text(second, texts, marks)
}

// The fields of a live slot.
pub fn count_node(view: &View<'_>, s: usize, marks: &mut [u64]) -> bool
    requires { (live_slot (decoded_nodes view.now) s ≡ true) × (view.now.document.counts.texts ≤ length marks.old) }
    ensures { Pass (length marks.old) (fields_hold view.now.document.counts.texts view.now.document.counts.names (decoded_nodes view.now) s) (held_in (decoded_nodes view.now) s) marks.old marks.new result }
{
    if !names_inside(view, s) {
        return false;
    }
    let first = first_text(view, s);
    let second = second_text(view, s);
    count_texts(first, second, view.document.counts.texts, marks)
}

// What the pool says of itself.
fn texts_hold(view: &View<'_>) -> bool
    ensures { result ≡ pool_ok (text_limits view.now.document) (text_counts view.now.document) (texts_part view.now.document view.now.words.now) }
{
    view.text_pool().is_sound()
}

// What the name table says of itself.
fn names_hold(view: &View<'_>) -> bool
    ensures { result ≡ table_ok (name_limits view.now.document) (name_counts view.now.document) (names_part view.now.document view.now.words.now) }
{
    view.name_table().check_names()
}

// Counts the free text list.
fn count_free(view: &View<'_>, marks: &mut [u64])
    requires { (view.now.document.counts.freetexts ≤ view.now.document.limits.texts) × Markable (part view.now.document.limits.texts view.now.document.counts.freetexts (texts_part view.now.document view.now.words.now)) marks.old }
    ensures { marks.new ≡ marked (part view.now.document.limits.texts view.now.document.counts.freetexts (texts_part view.now.document view.now.words.now)) marks.old }
{
    let pool = view.text_pool();
    texts::check::mark_free(pool.words, pool.limits, pool.counts, marks);
}

// Whether each text slot was counted once.
fn all_once(marks: &[u64], texts: usize) -> bool
    requires { texts ≤ length marks.now }
    ensures { result ≡ list_all (λ m. eqb m 1) (take texts marks.now) }
{
    marks[..texts].iter().all(|&mark| mark == 1)
}

// Whether each text slot is held once, where the pool holds and the fields are counted: the free list is counted behind them.
fn held_once(view: &View<'_>, marks: &mut [u64]) -> bool
    requires pool { (counts_within (limits_of view.now.document.limits) view.now.document.counts ≡ true) × (pool_ok (text_limits view.now.document) (text_counts view.now.document) (texts_part view.now.document view.now.words.now) ≡ true) }
    requires marks_len { (length marks.old ≡ view.now.document.counts.texts) × Counted view.now.document.counts.texts (gathered (held_in (decoded_nodes view.now)) (slots_made view.now.document)) marks.old }
    ensures { result ≡ slots_once view.now.document.counts.texts (decoded_nodes view.now) (slots_made view.now.document) (part view.now.document.limits.texts view.now.document.counts.freetexts (texts_part view.now.document view.now.words.now)) }
{
    count_free(view, marks);
    all_once(marks, view.document.counts.texts)
}

// Whether what rule 8 asks besides the fields holds, where the counts are within the limits (rule 1). The marks, a word for each text slot made, have the fields counted before,
// and anything after.
pub fn check_texts(view: &View<'_>, marks: &mut [u64]) -> bool
    requires counts { counts_within (limits_of view.now.document.limits) view.now.document.counts ≡ true }
    requires marks_len { (length marks.old ≡ view.now.document.counts.texts) × Counted view.now.document.counts.texts (gathered (held_in (decoded_nodes view.now)) (slots_made view.now.document)) marks.old }
    ensures { result ≡ pool_holds view.now.document view.now.words.now }
{
    if !texts_hold(view) {
        return false;
    }
    if !names_hold(view) {
        return false;
    }
    held_once(view, marks)
}
