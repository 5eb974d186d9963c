// The calls that copy words out of memory: how many there are is returned, and they are written where they fit.
ghost use Rattle.blocks.specs.Arena.{block};
ghost use Rattle.reading.specs.Answers.{text_bytes, name_bytes, order_shown};
ghost use Rattle.encoding.specs.Records.{document_of};
ghost use Rattle.exports.specs.Contract.{slot_told, entries_told, ExportedShow};

#[unsafe(no_mangle)]
pub extern "C" fn oxml_entries(
    document: &[u64],
    memory: &[u64],
    arena: u64,
    start: u64,
    len: u64,
    out: &mut [u64],
) -> u64
    ensures { ExportedShow document.now (entries_told arena (block start len) (document_of document.now) memory.now) out.old result out.new }
{
    exports::show::oxml_entries(document, memory, arena, start, len, out)
}

#[unsafe(no_mangle)]
pub extern "C" fn oxml_text_bytes(
    document: &[u64],
    memory: &[u64],
    text: u64,
    out: &mut [u64],
) -> u64
    ensures { ExportedShow document.now (text_bytes (document_of document.now) memory.now (slot_told text)) out.old result out.new }
{
    exports::show::oxml_text_bytes(document, memory, text, out)
}

#[unsafe(no_mangle)]
pub extern "C" fn oxml_namespace_bytes(
    document: &[u64],
    memory: &[u64],
    number: u64,
    out: &mut [u64],
) -> u64
    ensures { ExportedShow document.now (name_bytes (document_of document.now) memory.now number 0) out.old result out.new }
{
    exports::show::oxml_namespace_bytes(document, memory, number, out)
}

#[unsafe(no_mangle)]
pub extern "C" fn oxml_local_bytes(
    document: &[u64],
    memory: &[u64],
    number: u64,
    out: &mut [u64],
) -> u64
    ensures { ExportedShow document.now (name_bytes (document_of document.now) memory.now number 1) out.old result out.new }
{
    exports::show::oxml_local_bytes(document, memory, number, out)
}

#[unsafe(no_mangle)]
pub extern "C" fn oxml_order_words(document: &[u64], memory: &[u64], out: &mut [u64]) -> u64
    ensures { ExportedShow document.now (order_shown (document_of document.now) memory.now) out.old result out.new }
{
    exports::show::oxml_order_words(document, memory, out)
}
