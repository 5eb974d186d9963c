// Char, of XML 1.0 and 1.1 (xml.rs).
ghost use Rattle.std.specs.Prelude.{◌≡◌};
ghost use Rattle.chars.specs.Productions.{is_char, is_char11};

// Whether XML 1.0 has the character.
#[tactic(auto, unfolding(crate::specs::Productions::within, crate::specs::Productions::is_char))]
pub fn is_xml_char(c: u32) -> bool
    ensures { result ≡ is_char c }
{
    matches!(c, 0x9 | 0xA | 0xD | 0x20..=0xD7FF | 0xE000..=0xFFFD | 0x10000..=0x10FFFF)
}

// Whether XML 1.1 has the character, so that some version of XML can write it.
#[tactic(auto, unfolding(crate::specs::Productions::within, crate::specs::Productions::is_char11))]
pub fn is_expressible(c: u32) -> bool
    ensures { result ≡ is_char11 c }
{
    matches!(c, 0x1..=0xD7FF | 0xE000..=0xFFFD | 0x10000..=0x10FFFF)
}
