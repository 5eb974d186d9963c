// The start of a document.
ghost use Rattle.exports.specs.Contract.{ExportedStart};

#[unsafe(no_mangle)]
pub extern "C" fn oxml_start(document: &mut [u64], memory: &mut [u64]) -> u64
    ensures { ExportedStart document.old memory.old result document.new memory.new }
{
    exports::start::oxml_start(document, memory)
}
