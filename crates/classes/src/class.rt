// The class of a code point in names (xml.rs).
ghost use Rattle.std.specs.Prelude.{◌≡◌, ◌<◌, ◌≤◌};
ghost use Rattle.chars.specs.Classes.{class_of};

use crate::table::CLASSES;

// The class of a code point below 2,048, from the table.
fn class_in_table(c: usize) -> u8
    requires { c < 2048 }
    ensures { result ≡ class_of c }
{
    CLASSES[c]
}

// The class of a code point from 2,048 on, by the ranges of NameStartChar and NameChar.
#[tactic(auto, unfolding(chars::specs::Productions::within, chars::specs::Productions::is_name_start_char, chars::specs::Productions::is_name_char, chars::specs::Classes::class_of))]
fn class_in_ranges(c: u32) -> u8
    requires { 2048 ≤ c }
    ensures { result ≡ class_of c }
{
    match c {
        0x37F..=0x1FFF
        | 0x200C..=0x200D
        | 0x2070..=0x218F
        | 0x2C00..=0x2FEF
        | 0x3001..=0xD7FF
        | 0xF900..=0xFDCF
        | 0xFDF0..=0xFFFD
        | 0x10000..=0xEFFFF => 2,
        0x203F..=0x2040 => 1,
        _ => 0,
    }
}

// The class of a code point.
// Stays: a named form of 01, the array of 2,048 classes, which holds the numbers of the definition.
pub fn class_of(c: u32) -> u8
    ensures { result ≡ class_of c }
{
    if c < 2048 {
        class_in_table(c as usize)
    } else {
        class_in_ranges(c)
    }
}
