// The calls that move a node.
ghost use Rattle.std.specs.Prelude.{[]};
ghost use Rattle.model.specs.Calls.{reparent, insert-at};
ghost use Rattle.exports.specs.Contract.{Exported, as_done};

#[unsafe(no_mangle)]
pub extern "C" fn oxml_reparent(
    document: &mut [u64],
    memory: &mut [u64],
    scratch: &mut [u64],
    child: u64,
    parent: u64,
) -> u64
    ensures { Exported (reparent child parent) 0 as_done document.old memory.old scratch.old [] result document.new memory.new scratch.new [] }
{
    exports::moves::oxml_reparent(document, memory, scratch, child, parent)
}

#[unsafe(no_mangle)]
pub extern "C" fn oxml_insert_at(
    document: &mut [u64],
    memory: &mut [u64],
    scratch: &mut [u64],
    parent: u64,
    at: u64,
    child: u64,
) -> u64
    ensures { Exported (insert-at parent at child) 0 as_done document.old memory.old scratch.old [] result document.new memory.new scratch.new [] }
{
    exports::moves::oxml_insert_at(document, memory, scratch, parent, at, child)
}
