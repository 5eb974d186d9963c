// Names by number, and every live node.
ghost use Rattle.model.specs.Calls.{name_of};
ghost use Rattle.exports.specs.Contract.{ExportedRead, ExportedNodes, as_name};

#[unsafe(no_mangle)]
pub extern "C" fn oxml_name(
    document: &[u64],
    memory: &[u64],
    number: u64,
    answer: &mut [u64],
) -> u64
    ensures { ExportedRead (name_of number) 1 (as_name number) document.now memory.now answer.old result answer.new }
{
    exports::list::oxml_name(document, memory, number, answer)
}

#[unsafe(no_mangle)]
pub extern "C" fn oxml_nodes(
    document: &[u64],
    memory: &[u64],
    list: &mut [u64],
    answer: &mut [u64],
) -> u64
    ensures { ExportedNodes document.now memory.now list.old answer.old result list.new answer.new }
{
    exports::list::oxml_nodes(document, memory, list, answer)
}
