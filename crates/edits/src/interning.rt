// A name is interned in the document's table.
ghost use Rattle.std.specs.Prelude.{◌≡◌, ◌<◌};
ghost use Rattle.names.specs.Expanded.{expanded};
ghost use Rattle.names.specs.Table.{number_of, interned};
ghost use Rattle.memory.specs.Lent.{document_in, Stepped};
ghost use Rattle.edits.specs.Pooled.{set_names};
ghost use Rattle.edits.specs.Stores.{Internable};

use layout::record::with_names;
use memory::lent::Lent;
use names::ExpandedName;
use words::NameId;

// The number of the name, which is appended where the table lacks it.
pub fn intern_name(lent: &mut Lent<'_>, name: ExpandedName<'_>) -> NameId
    requires { Internable lent.old.document lent.old.words.now (expanded name) }
    ensures step { Stepped lent.old lent.new (set_names (document_in lent.old) (interned (document_in lent.old).names (expanded name.entry))) }
    ensures name_value { (result.0 ≡ number_of (document_in lent.old).names (expanded name.entry)) × (result.0 < 4294967296) }
{
    let interned = lent.write_name(name);
    lent.put_record(with_names(lent.document, interned.counts));
    interned.number
}
