// The calls that append a child.
ghost use Rattle.model.specs.Calls.{append-element, append-text, append-comment, append-pi};
ghost use Rattle.exports.specs.Contract.{Exported, as_made};

#[unsafe(no_mangle)]
pub extern "C" fn oxml_append_element(
    document: &mut [u64],
    memory: &mut [u64],
    scratch: &mut [u64],
    parent: u64,
    namespace: &[u8],
    local: &[u8],
    made: &mut [u64],
) -> u64
    ensures { Exported (append-element parent namespace.now local.now) 1 as_made document.old memory.old scratch.old made.old result document.new memory.new scratch.new made.new }
{
    exports::append::oxml_append_element(document, memory, scratch, parent, namespace, local, made)
}

#[unsafe(no_mangle)]
pub extern "C" fn oxml_append_text(
    document: &mut [u64],
    memory: &mut [u64],
    scratch: &mut [u64],
    parent: u64,
    text: &[u8],
    made: &mut [u64],
) -> u64
    ensures { Exported (append-text parent text.now) 1 as_made document.old memory.old scratch.old made.old result document.new memory.new scratch.new made.new }
{
    exports::append::oxml_append_text(document, memory, scratch, parent, text, made)
}

#[unsafe(no_mangle)]
pub extern "C" fn oxml_append_comment(
    document: &mut [u64],
    memory: &mut [u64],
    scratch: &mut [u64],
    parent: u64,
    text: &[u8],
    made: &mut [u64],
) -> u64
    ensures { Exported (append-comment parent text.now) 1 as_made document.old memory.old scratch.old made.old result document.new memory.new scratch.new made.new }
{
    exports::append::oxml_append_comment(document, memory, scratch, parent, text, made)
}

#[unsafe(no_mangle)]
pub extern "C" fn oxml_append_pi(
    document: &mut [u64],
    memory: &mut [u64],
    scratch: &mut [u64],
    parent: u64,
    target: &[u8],
    content: &[u8],
    made: &mut [u64],
) -> u64
    ensures { Exported (append-pi parent target.now content.now) 1 as_made document.old memory.old scratch.old made.old result document.new memory.new scratch.new made.new }
{
    exports::append::oxml_append_pi(document, memory, scratch, parent, target, content, made)
}
