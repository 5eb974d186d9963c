// Reads call lists from standard input and writes their answers: docs/CALLS.md.
#![tactic(auto)]

mod answer;
mod buffers;
mod edit;
mod input;

use answer::Session;
use buffers::{INPUT, MEMORY, OUT, SCRATCH, TEXTS};
use edit::Store;
use printing::sink::Sink;

fn main(rt: HostRuntime) {
    let mut mem = [0; MEMORY];
    let mut scratch = [0; SCRATCH];
    let mut texts = [0; TEXTS];
    let mut bytes = [0; INPUT];
    let mut out = [0; OUT];
    let mut session = Session {
        store: Store::new(&mut mem, &mut scratch),
        texts: &mut texts,
        out: Sink::new(&mut out),
        lines: 0,
    };
    input::replay(rt.stdin(), &mut session, &mut bytes);
}
