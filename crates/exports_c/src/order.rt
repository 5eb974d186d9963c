// Document order, and the arenas rebuilt.
ghost use Rattle.std.specs.Prelude.{[]};
ghost use Rattle.model.specs.Calls.{document-order, compact};
ghost use Rattle.exports.specs.Contract.{Exported, as_done, as_order};

#[unsafe(no_mangle)]
pub extern "C" fn oxml_document_order(
    document: &mut [u64],
    memory: &mut [u64],
    scratch: &mut [u64],
) -> u64
    ensures { Exported document-order 0 as_order document.old memory.old scratch.old [] result document.new memory.new scratch.new [] }
{
    exports::order::oxml_document_order(document, memory, scratch)
}

#[unsafe(no_mangle)]
pub extern "C" fn oxml_compact(document: &mut [u64], memory: &mut [u64], scratch: &mut [u64]) -> u64
    ensures { Exported compact 0 as_done document.old memory.old scratch.old [] result document.new memory.new scratch.new [] }
{
    exports::order::oxml_compact(document, memory, scratch)
}
