// Cases in a list of bytes: what a check must answer to each.
use chars::Fault;
use productions::checks as rules;

// Document 01's number of an answer.
// Stays: a case holds 01's number as a digit.
fn number_of(answer: Result<(), Fault>) -> u8 {
    match answer {
        Ok(()) => 0,
        Err(Fault::NotUtf8) => 1,
        Err(Fault::InvalidName) => 2,
        Err(Fault::InvalidText) => 3,
    }
}

fn ensure(holds: bool, why: Fault) -> Result<(), Fault> {
    if holds { Ok(()) } else { Err(why) }
}

pub fn check_utf8(s: &[u8]) -> Result<(), Fault> {
    ensure(rules::is_utf8(s), Fault::NotUtf8)
}

pub fn check_name(s: &[u8]) -> Result<(), Fault> {
    check_utf8(s)?;
    ensure(rules::is_ncname(s), Fault::InvalidName)
}

pub fn check_attribute(s: &[u8]) -> Result<(), Fault> {
    ensure(!rules::is_xmlns(s), Fault::InvalidName)
}

pub fn check_root_text(s: &[u8]) -> Result<(), Fault> {
    rules::check_text(s)?;
    ensure(rules::is_white_space(s), Fault::InvalidText)
}

// The bytes as a stored text, one a word. A case has no more, since one byte counts them.
pub fn check_stored(s: &[u8]) -> Result<(), Fault> {
    let mut words = [0u64; 255];
    for (word, byte) in words.iter_mut().zip(s) {
        *word = u64::from(*byte);
    }
    rules::check_text(&words[..s.len().min(words.len())])
}

// A digit, or what follows the digits in ASCII, as a number.
fn digit(byte: u8) -> u8 {
    byte.saturating_sub(b'0')
}

// Whether each case has the number that it must have. A case is that number and the count of bytes, each as a digit, and the bytes.
pub fn agree<F: Fn(&[u8]) -> Result<(), Fault>>(check: F, cases: &[u8]) -> bool
    requires { F.IsAlwaysCallable check }
{
    let mut rest = cases;
    while let [right, count, after @ ..] = rest {
        let Some((case, next)) = after.split_at_checked(usize::from(digit(*count))) else {
            return false;
        };
        if number_of(check(case)) != digit(*right) {
            return false;
        }
        rest = next;
    }
    rest.is_empty()
}
