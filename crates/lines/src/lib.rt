// The words of a line, and what a word says: a number, a handle, bytes; and bytes that are written. No document is known here.
#![tactic(auto)]

ghost use Rattle.std.specs.Prelude.{◌≡◌, ◌<◌, ◌≤◌, IfSome, length};

pub mod write;

use records::NodeId;

// Cuts a line at each space: how many words there are, which then stand at the front of the slice. None where it has no room for them.
pub fn cut<'a>(line: &'a [u8], words: &mut [&'a [u8]]) -> Option<usize>
    ensures { IfSome result (λ n. n ≤ length words.new) × (length words.new ≡ length words.old) }
{
    let mut n = 0;
    for word in line.split(|byte| *byte == b' ') {
        *words.get_mut(n)? = word;
        n += 1;
    }
    Some(n)
}

// Digits alone, any number of zeros in front.
pub fn read_number(word: &[u8]) -> Option<u64> {
    if word.is_empty() {
        return None;
    }
    let mut number = 0u64;
    for byte in word {
        let digit = char::from(*byte).to_digit(10)?;
        number = number.checked_mul(10)?.checked_add(u64::from(digit))?;
    }
    Some(number)
}

// `index:generation`, both below 2^32.
pub fn read_handle(word: &[u8]) -> Option<NodeId> {
    let colon = word.iter().position(|byte| *byte == b':')?;
    let index = u32::try_from(read_number(&word[..colon])?).ok()?;
    let generation = u32::try_from(read_number(&word[colon + 1..])?).ok()?;
    Some(NodeId { index, generation })
}

// The value of a hex digit in lower case.
fn hex_digit(byte: u8) -> Option<u8>
    ensures { IfSome result (λ digit. digit < 16) }
{
    match byte {
        b'0'..=b'9' => Some(byte - b'0'),
        b'a'..=b'f' => Some(byte - b'a' + 10),
        _ => None,
    }
}

// The bytes of a word, `x` and hex, which are written to the front of a room, and the room behind them. None where the word is no bytes, or they do not fit.
pub fn read_bytes<'a>(word: &[u8], room: &'a mut [u8]) -> Option<(&'a [u8], &'a mut [u8])> {
    let (pairs, odd) = word.strip_prefix(b"x")?.as_chunks::<2>();
    if !odd.is_empty() {
        return None;
    }
    let (text, room) = room.split_at_mut_checked(pairs.len())?;
    for (byte, [high, low]) in text.iter_mut().zip(pairs) {
        *byte = hex_digit(*high)? * 16 + hex_digit(*low)?;
    }
    Some((text, room))
}

// The same, and `-` for none.
pub fn read_optional<'a>(word: &[u8], room: &'a mut [u8]) -> Option<(&'a [u8], &'a mut [u8])> {
    if word == b"-".as_slice() {
        return Some((&[], room));
    }
    read_bytes(word, room)
}
