// The nodes below a node, in document order, itself and all attributes and namespaces left out.
ghost use Rattle.exports.specs.Walks.{ExportedWalk, ExportedNext, ExportedBelow};

#[unsafe(no_mangle)]
pub extern "C" fn oxml_descendants_of(
    document: &[u64],
    memory: &[u64],
    zone: u64,
    position: &mut [u64],
) -> u64
    ensures { ExportedWalk zone document.now memory.now position.old result position.new }
{
    exports::walk::oxml_descendants_of(document, memory, zone, position)
}

#[unsafe(no_mangle)]
pub extern "C" fn oxml_walk_next(
    document: &[u64],
    memory: &[u64],
    position: &mut [u64],
    answer: &mut [u64],
) -> u64
    ensures { ExportedNext document.now memory.now position.old answer.old result position.new answer.new }
{
    exports::walk::oxml_walk_next(document, memory, position, answer)
}

#[unsafe(no_mangle)]
pub extern "C" fn oxml_list_below(
    document: &[u64],
    memory: &[u64],
    zone: u64,
    list: &mut [u64],
    answer: &mut [u64],
) -> u64
    ensures { ExportedBelow zone document.now memory.now list.old answer.old result list.new answer.new }
{
    exports::walk::oxml_list_below(document, memory, zone, list, answer)
}
