// Outside vectors: UTF-8, the productions, names and texts.
use crate::cases::{agree, check_attribute, check_name, check_root_text, check_stored, check_utf8};
use crate::ends;
use crate::report::say;
use chars::Fault;
use chars::xml::{is_expressible, is_xml_char};
use classes::class::class_of;
use productions::checks as rules;

fn group<F: Fn(&[u8]) -> Result<(), Fault>>(name: &[u8], check: F, cases: &[u8])
    requires { F.IsAlwaysCallable check }
{
    say(name, agree(check, cases));
}

// Words that are no bytes.
fn stored_words() {
    let letter = [0x161u64];
    say(
        b"a word above 255",
        rules::check_text(&letter) == Err(Fault::NotUtf8),
    );
    let space = [0x20u64, 0x120u64];
    say(
        b"a word above 255 is no space",
        !rules::is_white_space(&space),
    );
    let spaces = [0x20u64, 0x9u64, 0xAu64];
    say(b"stored spaces", rules::is_white_space(&spaces));
}

fn productions() {
    say(b"class 0", ends::NO_NAME.iter().all(|c| class_of(*c) == 0));
    say(b"class 1", ends::NAME.iter().all(|c| class_of(*c) == 1));
    say(
        b"class 2",
        ends::NAME_START.iter().all(|c| class_of(*c) == 2),
    );
    say(b"Char", ends::CHAR.iter().all(|c| is_xml_char(*c)));
    say(b"no Char", !ends::NO_CHAR.iter().any(|c| is_xml_char(*c)));
    say(
        b"Char of XML 1.1",
        ends::CHAR11.iter().all(|c| is_expressible(*c)),
    );
    say(
        b"no Char of XML 1.1",
        !ends::NO_CHAR11.iter().any(|c| is_expressible(*c)),
    );
}

fn utf8() {
    group(
        b"UTF-8: shortest and longest forms",
        check_utf8,
        b"01\x0001\x7F02\xC2\x8002\xDF\xBF03\xE0\xA0\x8003\xE0\xBF\xBF03\xE1\x80\x8003\xEC\xBF\xBF03\xED\x80\x8003\xED\x9F\xBF03\xEE\x80\x8003\xEF\xBF\xBF04\xF0\x90\x80\x8004\xF0\xBF\xBF\xBF04\xF1\x80\x80\x8004\xF3\xBF\xBF\xBF04\xF4\x80\x80\x8004\xF4\x8F\xBF\xBF",
    );
    group(
        b"UTF-8: overlong forms",
        check_utf8,
        b"12\xC0\x8012\xC0\xAF12\xC1\xBF13\xE0\x80\x8013\xE0\x9F\xBF14\xF0\x80\x80\x8014\xF0\x8F\xBF\xBF",
    );
    group(
        b"UTF-8: surrogates",
        check_utf8,
        b"13\xED\xA0\x8013\xED\xAF\xBF13\xED\xB0\x8013\xED\xBF\xBF",
    );
    group(
        b"UTF-8: above U+10FFFF",
        check_utf8,
        b"14\xF4\x90\x80\x8014\xF5\x80\x80\x8014\xF7\xBF\xBF\xBF15\xF8\x88\x80\x80\x8016\xFC\x84\x80\x80\x80\x8011\xFE11\xFF",
    );
    group(
        b"UTF-8: truncated",
        check_utf8,
        b"11\xC212\xE0\xA011\xE112\xEF\xBF13\xF0\x90\x8012\xF4\x8F11\xF112\x61\xC312\xC2\x6113\xE1\x80\x6114\xF1\x80\x80\x61",
    );
    group(
        b"UTF-8: stray continuation",
        check_utf8,
        b"11\x8011\xBF12\x61\x8013\xC3\xA9\xA914\xE2\x82\xAC\xAC",
    );
    group(
        b"UTF-8: past the second byte",
        check_utf8,
        b"12\xC2\x7F12\xC2\xC013\xE1\x7F\x8013\xE1\xC0\x8013\xE1\x80\x7F13\xE1\x80\xC014\xF1\x80\x7F\x8014\xF1\x80\x80\xC0",
    );
}

fn names_and_uris() {
    group(
        b"names",
        check_name,
        b"12a\xFF21:22a:22-a21.22\xC2\xB722\xCC\x8003a\xCC\x8001_03xml05xmlns04a\xE2\x80\xBF23\xE2\x80\xBF04\xF0\x90\x80\x8004\xF3\xAF\xBF\xBF24\xF3\xB0\x80\x8023a b22a\x00",
    );
    group(
        b"attribute names",
        check_attribute,
        b"25xmlns04xmln06xmlnsx05XMLNS",
    );
    group(
        b"prefixes",
        rules::check_prefix,
        b"0025xmlns03XML02xm04xmlx23a:b21111\xC3",
    );
    group(
        b"namespaces",
        rules::check_namespace,
        b"002Mhttp://www.w3.org/2000/xmlns/0Lhttp://www.w3.org/2000/xmlns0Thttp://www.w3.org/XML/1998/namespace33\xEF\xBF\xBE34htt\x0013\xED\xA0\x80",
    );
    group(
        b"bindings",
        rules::check_namespace_binding,
        b"2Mhttp://www.w3.org/2000/xmlns/2Thttp://www.w3.org/XML/1998/namespace0Shttp://www.w3.org/XML/1998/namespac0Thttp://www.w3.org/xml/1998/namespace31\x0011\x80",
    );
    group(
        b"targets",
        |s| rules::check_pi(s, b""),
        b"23xml23XML02xm05xml-x05xmlns2023a:b11\x80",
    );
}

fn texts() {
    group(
        b"text under the Root",
        check_root_text,
        b"04 \x09\x0A 12 \x8032\xC2\xA032 a31\x00",
    );
    group(
        b"text",
        rules::check_text::<u8>,
        b"0001\x0101\x7F02\xC2\x8501\x0D31\x0033a\x00b33\xEF\xBF\xBE33\xEF\xBF\xBF03\xEF\xBF\xBD03\xED\x9F\xBF03\xEE\x80\x8004\xF0\x9F\xBF\xBE04\xF4\x8F\xBF\xBF12\x00\xFF",
    );
    group(
        b"stored text",
        check_stored,
        b"0001\x0131\x0033\xEF\xBF\xBE04\xF4\x8F\xBF\xBF14\xF4\x90\x80\x8012\x00\xFF",
    );
    group(
        b"literal text",
        rules::check_literal,
        b"0002\x09\x0A31\x0D33a\x0D\x0A31\x0131\x0002\xC2\x8533\xEF\xBF\xBF02--02?>12\xC0\x80",
    );
    group(
        b"comments",
        rules::check_comment,
        b"0031-32--33---04- -a04-a-b32-\x0D33a-\x0013--\xFF",
    );
    group(
        b"PI data",
        |s| rules::check_pi(b"p", s),
        b"0001?01>03? >32?>34a?>b33??>02>?31\x0D13?>\xFF",
    );
}

pub fn run() {
    productions();
    utf8();
    names_and_uris();
    texts();
    stored_words();
}
