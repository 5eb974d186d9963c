// Bench example 6: "Generation 4,294,967,294 freed, reused: 0."
use crate::document::Lent;
use exports::append::oxml_append_text;
use exports::remove::{oxml_detach, oxml_remove};

// The handle (1, 4,294,967,294), and that generation.
const WORN: u64 = 18446744065119617025;

const LAST: u64 = 4294967294;

// The handle of a new text under the Root, none where the call is refused.
fn space(lent: &mut Lent) -> Option<u64> {
    let mut made = [0];
    let answer = oxml_append_text(
        &mut lent.document,
        &mut lent.memory,
        &mut lent.scratch,
        0,
        b" ",
        &mut made,
    );
    (answer == 0).then_some(made[0])
}

// Whether slot 1 holds a text without a parent, at the last even generation.
fn is_prepared(lent: &mut Lent) -> bool {
    let started = lent.starts();
    let first = space(lent);
    let alone = oxml_detach(&mut lent.document, &mut lent.memory, &mut lent.scratch, 1);
    lent.memory[1] = LAST;
    started && first == Some(1) && alone == 0
}

// What removing the text at that generation answers.
fn removal(lent: &mut Lent) -> u64 {
    oxml_remove(
        &mut lent.document,
        &mut lent.memory,
        &mut lent.scratch,
        WORN,
    )
}

// The text is removed, the next takes its slot with the handle (1, 0), and the old handle is Stale.
pub fn reused() -> bool {
    let mut lent = Lent::new();
    is_prepared(&mut lent)
        && removal(&mut lent) == 0
        && lent.memory[1] == LAST + 1
        && space(&mut lent) == Some(1)
        && removal(&mut lent) == 6
}
