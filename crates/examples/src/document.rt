// A small document with its buffers, and what several tests do with it.
use exports::append::oxml_append_element;
use exports::start::oxml_start;

// The words of a record.
const RECORD: usize = 19;

// The words of the buffers for the limits below, by the formulas of docs/LAYOUT.md.
const MEMORY: usize = 800;

const SCRATCH: usize = 272;

// The words that each exported call is lent.
#[derive(Drop)]
pub struct Lent {
    pub document: [u64; RECORD],
    pub memory: [u64; MEMORY],
    pub scratch: [u64; SCRATCH],
}

impl Lent {
    pub fn new() -> Lent {
        Lent {
            document: [0; RECORD],
            memory: [0; MEMORY],
            scratch: [0; SCRATCH],
        }
    }

    // Whether a document starts with room for 16 nodes.
    pub fn starts(&mut self) -> bool {
        self.document[..8].copy_from_slice(&[16, 64, 64, 64, 16, 64, 8, 64]);
        oxml_start(&mut self.document, &mut self.memory) == 0
    }

    // The handle of a new element without a namespace, none where the call is refused.
    pub fn element(&mut self, parent: u64, local: &[u8]) -> Option<u64> {
        let mut made = [0];
        let answer = oxml_append_element(
            &mut self.document,
            &mut self.memory,
            &mut self.scratch,
            parent,
            b"",
            local,
            &mut made,
        );
        (answer == 0).then_some(made[0])
    }
}
