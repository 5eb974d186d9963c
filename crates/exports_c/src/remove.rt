// The calls that remove and detach.
ghost use Rattle.std.specs.Prelude.{[]};
ghost use Rattle.model.specs.Calls.{remove-attribute, remove, detach};
ghost use Rattle.exports.specs.Contract.{Exported, as_done, as_truth};

#[unsafe(no_mangle)]
pub extern "C" fn oxml_remove_attribute(
    document: &mut [u64],
    memory: &mut [u64],
    scratch: &mut [u64],
    element: u64,
    namespace: &[u8],
    local: &[u8],
    found: &mut [u64],
) -> u64
    ensures { Exported (remove-attribute element namespace.now local.now) 1 as_truth document.old memory.old scratch.old found.old result document.new memory.new scratch.new found.new }
{
    exports::remove::oxml_remove_attribute(
        document, memory, scratch, element, namespace, local, found,
    )
}

#[unsafe(no_mangle)]
pub extern "C" fn oxml_remove(
    document: &mut [u64],
    memory: &mut [u64],
    scratch: &mut [u64],
    id: u64,
) -> u64
    ensures { Exported (remove id) 0 as_done document.old memory.old scratch.old [] result document.new memory.new scratch.new [] }
{
    exports::remove::oxml_remove(document, memory, scratch, id)
}

#[unsafe(no_mangle)]
pub extern "C" fn oxml_detach(
    document: &mut [u64],
    memory: &mut [u64],
    scratch: &mut [u64],
    id: u64,
) -> u64
    ensures { Exported (detach id) 0 as_done document.old memory.old scratch.old [] result document.new memory.new scratch.new [] }
{
    exports::remove::oxml_detach(document, memory, scratch, id)
}
