// The calls that change a text, an attribute or a namespace.
ghost use Rattle.std.specs.Prelude.{[]};
ghost use Rattle.model.specs.Calls.{set-text, set-attribute, declare-namespace};
ghost use Rattle.exports.specs.Contract.{Exported, as_done, as_made};

#[unsafe(no_mangle)]
pub extern "C" fn oxml_set_text(
    document: &mut [u64],
    memory: &mut [u64],
    scratch: &mut [u64],
    id: u64,
    text: &[u8],
) -> u64
    ensures { Exported (set-text id text.now) 0 as_done document.old memory.old scratch.old [] result document.new memory.new scratch.new [] }
{
    exports::change::oxml_set_text(document, memory, scratch, id, text)
}

#[unsafe(no_mangle)]
pub extern "C" fn oxml_set_attribute(
    document: &mut [u64],
    memory: &mut [u64],
    scratch: &mut [u64],
    element: u64,
    namespace: &[u8],
    local: &[u8],
    value: &[u8],
) -> u64
    ensures { Exported (set-attribute element namespace.now local.now value.now) 0 as_done document.old memory.old scratch.old [] result document.new memory.new scratch.new [] }
{
    exports::change::oxml_set_attribute(document, memory, scratch, element, namespace, local, value)
}

#[unsafe(no_mangle)]
pub extern "C" fn oxml_declare_namespace(
    document: &mut [u64],
    memory: &mut [u64],
    scratch: &mut [u64],
    element: u64,
    prefix: &[u8],
    uri: &[u8],
    made: &mut [u64],
) -> u64
    ensures { Exported (declare-namespace element prefix.now uri.now) 1 as_made document.old memory.old scratch.old made.old result document.new memory.new scratch.new made.new }
{
    exports::change::oxml_declare_namespace(document, memory, scratch, element, prefix, uri, made)
}
