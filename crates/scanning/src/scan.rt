// One pass over a text by a rule, for bytes and for words that hold a byte each.
ghost use Rattle.std.specs.Prelude.{◌≡◌};
ghost use Rattle.chars.specs.declared.State.TheVariants.{Start};
ghost use Rattle.chars.specs.Utf8.{decode};
ghost use Rattle.chars.specs.Checks.{is_literal, is_space};
ghost use Rattle.chars.specs.Scan.{inside_if, comment_next, pi_next, name_next, next, turn, may_end, verdict_after};

use chars::utf8::{Unit, step_at};
use chars::xml::{is_expressible, is_xml_char};
use chars::{NotUtf8, Rule, State};
use classes::class::class_of;

fn inside_if(passes: bool) -> State
    ensures { result ≡ inside_if passes }
{
    if passes { State::Inside } else { State::Failed }
}

// XML 1.0 Char without U+000D: a body is written verbatim, and a line end would be normalised.
#[tactic(auto, unfolding(chars::specs::Checks::is_literal))]
fn is_literal(c: u32) -> bool
    ensures { result ≡ is_literal c }
{
    c != 0xD && is_xml_char(c)
}

#[tactic(auto, unfolding(chars::specs::Checks::is_space))]
fn is_space(c: u32) -> bool
    ensures { result ≡ is_space c }
{
    matches!(c, 0x20 | 0x9 | 0xA)
}

#[tactic(auto, unfolding(chars::specs::Scan::comment_next))]
fn comment_next(state: State, c: u32) -> State
    ensures { result ≡ comment_next state c }
{
    if !is_literal(c) {
        return State::Failed;
    }
    match (c, state) {
        (0x2D, State::Mark) => State::Failed,
        (0x2D, _) => State::Mark,
        _ => State::Inside,
    }
}

#[tactic(auto, unfolding(chars::specs::Scan::pi_next))]
fn pi_next(state: State, c: u32) -> State
    ensures { result ≡ pi_next state c }
{
    if !is_literal(c) {
        return State::Failed;
    }
    match (c, state) {
        (0x3F, _) => State::Mark,
        (0x3E, State::Mark) => State::Failed,
        _ => State::Inside,
    }
}

#[tactic(auto, unfolding(chars::specs::Scan::name_next))]
fn name_next(state: State, c: u32) -> State
    ensures { result ≡ name_next state c }
{
    if c == 0x3A {
        return State::Failed;
    }
    match (class_of(c), state) {
        (2, _) => State::Inside,
        (_, State::Start) => State::Failed,
        (class, _) => inside_if(class == 1),
    }
}

#[tactic(auto, unfolding(chars::specs::Scan::next))]
fn next_state(rule: Rule, state: State, c: u32) -> State
    ensures { result ≡ next rule state c }
{
    match rule {
        Rule::Utf8 => State::Inside,
        Rule::Text => inside_if(is_expressible(c)),
        Rule::Literal => inside_if(is_literal(c)),
        Rule::Comment => comment_next(state, c),
        Rule::PiData => pi_next(state, c),
        Rule::Name => name_next(state, c),
        Rule::WhiteSpace => inside_if(is_space(c)),
    }
}

#[tactic(auto, unfolding(chars::specs::Scan::turn))]
fn turned(rule: Rule, state: State, c: u32) -> State
    ensures { result ≡ turn rule state c }
{
    if state == State::Failed {
        return state;
    }
    next_state(rule, state, c)
}

#[tactic(auto, unfolding(chars::specs::Scan::may_end))]
fn may_end(rule: Rule, state: State) -> bool
    ensures { result ≡ may_end rule state }
{
    match state {
        State::Start => rule != Rule::Name,
        State::Inside => true,
        State::Mark => rule != Rule::Comment,
        State::Failed => false,
    }
}

// Reads a text; where it holds words, each is a byte if it is one.
pub fn scan<T: Unit>(s: &[T], rule: Rule) -> Result<bool, NotUtf8>
    ensures { result ≡ verdict_after rule Start (decode (T.numbers s.now)) }
{
    let mut state = State::Start;
    let mut i = 0;
    // Stays: a code point takes one number or more, so the index moves on by what was read.
    while i < s.len() {
        let point = step_at(s, i).ok_or(NotUtf8)?;
        state = turned(rule, state, point.code);
        i += 1 + point.more;
    }
    Ok(may_end(rule, state))
}
