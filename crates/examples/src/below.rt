// A walk below a node, step by step.
use crate::document::Lent;
use exports::change::oxml_set_attribute;
use exports::walk::{oxml_descendants_of, oxml_walk_next};

// The words of a position.
const POSITION: usize = 7;

// Whether element 1 has the children 2, 3 and 4 and the attribute 5, and 3 has the child 6: the handles of generation 0.
fn is_made(lent: &mut Lent) -> bool {
    let started = lent.starts();
    let made = [(0, b"e"), (1, b"a"), (1, b"b"), (1, b"c")].map(|(parent, local)| lent.element(
        parent, local,
    ));
    let named = oxml_set_attribute(
        &mut lent.document,
        &mut lent.memory,
        &mut lent.scratch,
        1,
        b"",
        b"d",
        b"v",
    );
    started && made == [1, 2, 3, 4].map(Some) && named == 0 && lent.element(3, b"f") == Some(6)
}

// The node that the next step lists, 0 at the end (the Root is below no node), none where the step is refused.
fn next(lent: &Lent, position: &mut [u64; POSITION]) -> Option<u64> {
    let mut listed = [0; 2];
    let answer = oxml_walk_next(&lent.document, &lent.memory, position, &mut listed);
    (answer == 0).then_some(listed[1])
}

// Whether the first steps of the walk below a node list these.
fn lists<const N: usize>(lent: &Lent, zone: u64, nodes: [u64; N]) -> bool {
    let mut at = [0; POSITION];
    oxml_descendants_of(&lent.document, &lent.memory, zone, &mut at) == 0
        && nodes.iter().all(|node| next(lent, &mut at) == Some(*node))
}

// The walk below 1 lists 2, 3, 6 and 4, and stays at its end. Of the attribute, and of the stale handle (1, 1), nothing is listed.
pub fn listed() -> bool {
    let mut lent = Lent::new();
    is_made(&mut lent)
        && lists(&lent, 1, [2, 3, 6, 4, 0, 0])
        && lists(&lent, 5, [0])
        && lists(&lent, 4294967297, [0])
}
