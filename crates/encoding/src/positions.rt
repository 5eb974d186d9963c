// The position of a walk as words, and what a walk's calls answer written to the slices that are lent for it.
ghost use Rattle.std.specs.Prelude.{◌≡◌, ◌≤◌, length};
ghost use Rattle.encoding.specs.Given.{status_of, given_to};
ghost use Rattle.encoding.specs.Positions.{position_words, position_of, start_words, next_words, next_position};

use crate::answer::refused;
use crate::numbers::{give, put};
use model::Refusal;
use steps::position::{Hints, Position};

#[tactic(auto, unfolding(crate::specs::Positions::position_of))]
pub fn position_of(words: &[u64]) -> Position
    requires { 7 ≤ length words.now }
    ensures { result ≡ position_of words.now }
{
    let hints = Hints {
        short: words[2] as usize,
        middling: words[3] as usize,
        long: words[4] as usize,
        longest: words[5] as usize,
    };
    Position {
        zone: words[0],
        node: words[1],
        hints,
        left: words[6] as usize,
    }
}

pub fn position_words(p: Position) -> [u64; 7]
    ensures { result ≡ position_words p }
{
    [
        p.zone,
        p.node,
        p.hints.short as u64,
        p.hints.middling as u64,
        p.hints.long as u64,
        p.hints.longest as u64,
        p.left as u64,
    ]
}

pub fn give_start(position: &mut [u64], answer: Result<Position, Refusal>) -> u64
    requires { 7 ≤ length position.old }
    ensures { (result ≡ status_of (start_words answer)) × (position.new ≡ given_to position.old (start_words answer)) }
{
    give(position, answer.map(position_words))
}

pub fn give_next(
    position: &mut [u64],
    out: &mut [u64],
    answer: Result<Option<Position>, Refusal>,
) -> u64
    requires { (7 ≤ length position.old) × (2 ≤ length out.old) }
    ensures { (result ≡ status_of (next_words answer)) × (position.new ≡ given_to position.old (next_position answer)) × (out.new ≡ given_to out.old (next_words answer)) }
{
    let next = match answer {
        Ok(next) => next,
        Err(why) => return refused(why),
    };
    let Some(p) = next else {
        return give(out, Ok([0, 0]));
    };
    put(position, position_words(p));
    give(out, Ok([1, p.node]))
}
