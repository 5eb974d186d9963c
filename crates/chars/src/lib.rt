// Characters: UTF-8, XML's characters, and what the productions over them answer. In specs/ also their classes.
#![tactic(auto)]

ghost use Rattle.std.specs.Prelude.{◌≡◌};
ghost use Rattle.chars.specs.declared.Fault.TheVariants as fault;

pub mod utf8; // utf8.rt: one step of decoding
pub mod xml; // xml.rt: Char

// Why a check refuses.
#[derive(Clone, Copy, Debug, PartialEq, Eq)]
pub enum Fault {
    NotUtf8,
    InvalidName,
    InvalidText,
}

// The bytes are no UTF-8.
#[derive(Clone, Copy, Debug, PartialEq, Eq)]
pub struct NotUtf8;

// A code point of a text, with the number of further bytes that spell it.
#[derive(Clone, Copy, Debug, PartialEq, Eq)]
pub struct Point {
    pub code: u32,
    pub more: usize,
}

// The rule that a text is read by.
#[derive(Clone, Copy, Debug, PartialEq, Eq)]
pub enum Rule {
    Utf8,
    Text,
    Literal,
    Comment,
    PiData,
    Name,
    WhiteSpace,
}

// What a rule keeps of the code points read so far: none was read, the last has no part in what follows, the last is the first half
// of what a comment or PI data may not have, or the rule is broken.
#[derive(Clone, Copy, Debug, PartialEq, Eq)]
pub enum State {
    Start,
    Inside,
    Mark,
    Failed,
}

impl From<NotUtf8> for Fault {
    ghost from_gives = { λ _ why. why ≡ fault.NotUtf8 };

    fn from(_: NotUtf8) -> Fault {
        Fault::NotUtf8
    }
}
