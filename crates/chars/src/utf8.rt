// One step of decoding UTF-8, for bytes and for words that hold a byte each.
ghost use Rattle.std.specs.Prelude.{◌≡◌, ◌+◌, ◌-◌, ◌*◌, ◌≤◌, ◌<◌, ℕ, List, map, length, get_or};
ghost use Rattle.chars.specs.Productions.{within};
ghost use Rattle.chars.specs.Utf8.{is_tail, two, three, four, step, step_at};
ghost use Rattle.std.proofs.lemmas.List.{map-id};

use crate::Point;

// A number of which a text is a list: a byte, or a word that holds one.
pub trait Unit: Copy {
    ghost number: { Self → ℕ };

    ghost numbers: { List Self → List ℕ };

    fn word(self) -> u64
        ensures { result ≡ number self };

    ghost each: { (l : List Self) → map number l ≡ numbers l };
}

impl Unit for u8 {
    ghost number = { λ x. x };

    ghost numbers = { λ l. l };

    ghost each = { map-id };

    fn word(self) -> u64 {
        self as u64
    }
}

impl Unit for u64 {
    ghost number = { λ x. x };

    ghost numbers = { λ l. l };

    ghost each = { map-id };

    fn word(self) -> u64 {
        self
    }
}

#[tactic(auto, unfolding(crate::specs::Productions::within))]
fn is_within(x: u64, low: u64, high: u64) -> bool
    ensures { result ≡ within x (low, high) }
{
    (low..=high).contains(&x)
}

fn is_tail(byte: u64) -> bool
    ensures { result ≡ is_tail byte }
{
    is_within(byte, 0x80, 0xBF)
}

// The six bits of a further byte after the bits so far.
fn append(code: u64, byte: u64) -> u64
    requires { (code < 0x10000) × (0x80 ≤ byte) × (byte ≤ 0xBF) }
    ensures { result ≡ code * 64 + (byte - 0x80) }
{
    code * 64 + (byte - 0x80)
}

// A sequence of two bytes, the first of which is known.
#[tactic(auto, unfolding(crate::specs::Productions::within, crate::specs::Utf8::two))]
fn two_bytes(a: u64, b: u64) -> Option<Point>
    requires { (0xC2 ≤ a) × (a ≤ 0xDF) }
    ensures { result ≡ two a b }
{
    if !is_tail(b) {
        return None;
    }
    Some(Point {
        code: append(a - 0xC0, b) as u32,
        more: 1,
    })
}

// A sequence of three bytes, the second of which is within low and high.
#[tactic(auto, unfolding(crate::specs::Productions::within, crate::specs::Utf8::three))]
fn three_bytes(a: u64, b: u64, c: u64, low: u64, high: u64) -> Option<Point>
    requires { (0xE0 ≤ a) × (a ≤ 0xEF) × (0x80 ≤ low) × (high ≤ 0xBF) }
    ensures { result ≡ three (low, high) a b c }
{
    if !(is_within(b, low, high) & is_tail(c)) {
        return None;
    }
    Some(Point {
        code: append(append(a - 0xE0, b), c) as u32,
        more: 2,
    })
}

// A sequence of four bytes, the second of which is within low and high.
#[tactic(auto, unfolding(crate::specs::Productions::within, crate::specs::Utf8::four))]
fn four_bytes(a: u64, b: u64, c: u64, d: u64, low: u64, high: u64) -> Option<Point>
    requires { (0xF0 ≤ a) × (a ≤ 0xF4) × (0x80 ≤ low) × (high ≤ 0xBF) }
    ensures { result ≡ four (low, high) a b c d }
{
    if !(is_within(b, low, high) & (is_tail(c) & is_tail(d))) {
        return None;
    }
    Some(Point {
        code: append(append(append(a - 0xF0, b), c), d) as u32,
        more: 3,
    })
}

// The step that four numbers make, by the row of the first.
#[tactic(auto, unfolding(crate::specs::Productions::within, crate::specs::Utf8::step))]
fn step_of(a: u64, b: u64, c: u64, d: u64) -> Option<Point>
    ensures { result ≡ step a b c d }
{
    match a {
        0x00..=0x7F => Some(Point {
            code: a as u32,
            more: 0,
        }),
        0xC2..=0xDF => two_bytes(a, b),
        0xE0 => three_bytes(a, b, c, 0xA0, 0xBF),
        0xE1..=0xEC => three_bytes(a, b, c, 0x80, 0xBF),
        0xED => three_bytes(a, b, c, 0x80, 0x9F),
        0xEE..=0xEF => three_bytes(a, b, c, 0x80, 0xBF),
        0xF0 => four_bytes(a, b, c, d, 0x90, 0xBF),
        0xF1..=0xF3 => four_bytes(a, b, c, d, 0x80, 0xBF),
        0xF4 => four_bytes(a, b, c, d, 0x80, 0x8F),
        _ => None,
    }
}

// The number at an index, and 0 past the end.
fn number_at<T: Unit>(s: &[T], i: usize) -> u64
    ensures { result ≡ get_or (T.numbers s.now) i 0 }
{
    if i < s.len() { s[i].word() } else { 0 }
}

// The step at an index of a text.
pub fn step_at<T: Unit>(s: &[T], i: usize) -> Option<Point>
    requires { i < length s.now }
    ensures { result ≡ step_at (T.numbers s.now) i }
{
    let rest = &s[i..];
    step_of(
        number_at(rest, 0),
        number_at(rest, 1),
        number_at(rest, 2),
        number_at(rest, 3),
    )
}
