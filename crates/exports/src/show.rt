// The calls that copy words out of memory: how many there are is returned, and they are written where they fit.
ghost use Rattle.std.specs.Prelude.{◌≡◌, length};
ghost use Rattle.blocks.specs.Arena.{block};
ghost use Rattle.layout.specs.Layout.{which_of};
ghost use Rattle.reading.specs.Answers.{entries_shown, text_bytes, name_bytes, order_shown};
ghost use Rattle.encoding.specs.Records.{document_of};
ghost use Rattle.exports.specs.Contract.{slot_told, shown_to, entries_told, ExportedShow};

use crate::list::name_id;
use encoding::record::lent_record;
use layout::{Arena, Document};
use records::Range;
use records::decode::chars_of;

fn give(words: &[u64], out: &mut [u64]) -> u64
    ensures { (result ≡ length words.now) × (out.new ≡ shown_to words.now out.old) }
{
    let n = words.len();
    if n <= out.len() {
        words::write_words(out, 0, words);
    }
    n as u64
}

// No block that starts or is long above 32 bits lies within an arena.
fn show_block(d: Document, memory: &[u64], arena: Arena, start: u64, len: u64) -> &[u64]
    ensures { result.now ≡ entries_shown d memory.now (which_of arena) (block start len) }
{
    if start >= 4294967296 || len >= 4294967296 {
        return &[];
    }
    let range = Range {
        start: start as u32,
        len: len as u32,
    };
    reading::list::entries(d, memory, arena, range)
}

fn show_entries(d: Document, memory: &[u64], arena: u64, start: u64, len: u64) -> &[u64]
    ensures { result.now ≡ entries_told arena (block start len) d memory.now }
{
    match arena {
        0 => show_block(d, memory, Arena::Children, start, len),
        1 => show_block(d, memory, Arena::Attributes, start, len),
        2 => show_block(d, memory, Arena::Namespaces, start, len),
        _ => &[],
    }
}

fn show_text(d: Document, memory: &[u64], text: u64) -> &[u64]
    ensures { result.now ≡ text_bytes d memory.now (slot_told text) }
{
    if text > 4294967296 {
        return &[];
    }
    reading::text::text_bytes(d, memory, chars_of(text))
}

// Stays: the C interface has a function for each call; what they have in common is `lent_record` and what gives the answer.
// The handles of a block of arena 0, 1 or 2. Rules out those of another arena.
pub fn oxml_entries(
    document: &[u64],
    memory: &[u64],
    arena: u64,
    start: u64,
    len: u64,
    out: &mut [u64],
) -> u64
    ensures { ExportedShow document.now (entries_told arena (block start len) (document_of document.now) memory.now) out.old result out.new }
{
    let Some(d) = lent_record(document, 0, 0) else {
        return 0;
    };
    give(show_entries(d, memory, arena, start, len), out)
}

// The bytes of a text that `oxml_kind` told, one a word. Rules out those of another.
pub fn oxml_text_bytes(document: &[u64], memory: &[u64], text: u64, out: &mut [u64]) -> u64
    ensures { ExportedShow document.now (text_bytes (document_of document.now) memory.now (slot_told text)) out.old result out.new }
{
    let Some(d) = lent_record(document, 0, 0) else {
        return 0;
    };
    give(show_text(d, memory, text), out)
}

// The namespace of a name, one byte a word. Rules out its local part.
pub fn oxml_namespace_bytes(document: &[u64], memory: &[u64], number: u64, out: &mut [u64]) -> u64
    ensures { ExportedShow document.now (name_bytes (document_of document.now) memory.now number 0) out.old result out.new }
{
    let Some(d) = lent_record(document, 0, 0) else {
        return 0;
    };
    give(
        reading::name::namespace_bytes(d, memory, name_id(number)),
        out,
    )
}

// The local part of a name, one byte a word. Rules out its namespace.
pub fn oxml_local_bytes(document: &[u64], memory: &[u64], number: u64, out: &mut [u64]) -> u64
    ensures { ExportedShow document.now (name_bytes (document_of document.now) memory.now number 1) out.old result out.new }
{
    let Some(d) = lent_record(document, 0, 0) else {
        return 0;
    };
    give(reading::name::local_bytes(d, memory, name_id(number)), out)
}

// The order words of the slots made. Rules out those of slots that were never made.
pub fn oxml_order_words(document: &[u64], memory: &[u64], out: &mut [u64]) -> u64
    ensures { ExportedShow document.now (order_shown (document_of document.now) memory.now) out.old result out.new }
{
    let Some(d) = lent_record(document, 0, 0) else {
        return 0;
    };
    give(reading::order::order_words(d, memory), out)
}
