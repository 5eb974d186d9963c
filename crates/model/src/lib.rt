// What calls refuse with. The document, its calls as functions, the structure rules and the plain tree are definitions (specs/), with the bench examples over them.
#![tactic(auto)]

ghost use Rattle.std.specs.Prelude.{◌≡◌};
ghost use Rattle.model.specs.Refusals.{number_of, refusal_of};

use chars::Fault;

// The refusals of document 01, in its order: those from the input, then those from the state.
#[derive(Clone, Copy, Debug, PartialEq, Eq)]
pub enum Refusal {
    NotUtf8 = 1,
    InvalidName,
    InvalidText,
    BadBuffers,
    Damaged,
    Stale,
    NotAnElement,
    NotAContainer,
    NotAChild,
    NotText,
    NotRemovable,
    RootElementExists,
    WouldCycle,
    Full,
    OrderStale,
}

// A refusal's number.
impl From<Refusal> for u8 {
    ghost from_gives = { λ refusal n. n ≡ number_of refusal };

    fn from(refusal: Refusal) -> u8 {
        refusal as u8
    }
}

// The refusal of bytes that a check refuses.
impl From<Fault> for Refusal {
    ghost from_gives = { λ fault refusal. refusal ≡ refusal_of fault };

    fn from(fault: Fault) -> Refusal {
        match fault {
            Fault::NotUtf8 => Refusal::NotUtf8,
            Fault::InvalidName => Refusal::InvalidName,
            Fault::InvalidText => Refusal::InvalidText,
        }
    }
}
