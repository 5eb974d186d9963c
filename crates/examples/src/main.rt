// What no list of calls can hold, through the exported calls: bench example 6, whose generation is written into the memory, and a walk step by step.
// Each writes a line. The other examples are a list of `replay`.
#![tactic(auto)]

mod below; // below.rt: a walk below a node
mod document; // document.rt: a document and its buffers
mod worn; // worn.rt: example 6

// Stays: `println!` would trust more of C than the one write of `io`.
fn say(name: &[u8], right: bool) {
    io::write_all(1, name);
    io::write_all(
        1,
        if right {
            b" ok\n".as_slice()
        } else {
            b" FAILED\n".as_slice()
        },
    );
}

fn main() {
    say(b"example 6", worn::reused());
    say(b"a walk below a node", below::listed());
}
