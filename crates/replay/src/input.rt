// The lines of standard input, one after the other, in whatever pieces it comes.
ghost use Rattle.std.specs.Prelude.{◌≤◌, length, unwrap_or};

use crate::answer::Session;
use parsing::parse::LONGEST;
use std::io::{Read, Stdin};

// How many bytes of a line are kept that is not whole: none where it is too long.
fn kept(len: usize) -> Option<usize>
    ensures { unwrap_or result 0 ≤ len }
{
    if len <= LONGEST { Some(len) } else { None }
}

// Answers the lines that end before an index, and moves what is left before it to the front. The start of the first line is the one that was kept: no line ends in it.
fn answer_lines(
    session: &mut Session<'_>,
    mut start: Option<usize>,
    input: &mut [u8],
    end: usize,
) -> Option<usize>
    requires { (unwrap_or start 0 ≤ end) × (end ≤ length input.old) }
    ensures { unwrap_or result 0 ≤ length input.new }
{
    let from = start.unwrap_or(0);
    let Some(last) = input[from..end].iter().rposition(|byte| *byte == b'\n') else {
        return start.and(kept(end));
    };
    let newline = from + last;
    for line in input[..newline].split(|byte| *byte == b'\n') {
        session.answer(start.and(Some(line)));
        start = Some(0);
    }
    let rest = newline + 1;
    input.copy_within(rest..end, 0);
    kept(end - rest)
}

// The last line may end with the input. A read that fails ends it too.
pub fn replay(mut stdin: Stdin, session: &mut Session<'_>, input: &mut [u8]) {
    let mut start = Some(0);
    // A proved loop has to end, and nothing says that the input does: no run uses up so many reads.
    for _ in 0..u64::MAX {
        // The read may wait for who reads the answers.
        session.out.flush();
        let from = start.unwrap_or(0);
        let read = stdin.read(&mut input[from..]).unwrap_or(0);
        if read == 0 {
            break;
        }
        start = answer_lines(session, start, input, from + read);
    }
    if start != Some(0) {
        session.answer(start.map(|end| &input[..end]));
    }
    session.out.flush();
}
