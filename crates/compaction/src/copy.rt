// Lists copied behind one another into the capacity words of their arenas, each with its owner's new range.
ghost use Rattle.std.specs.Prelude.{◌≡◌};
ghost use Rattle.layout.specs.Layout.{which_of};
ghost use Rattle.memory.specs.Lent.{document_in, Becomes};
ghost use Rattle.compaction.specs.Copies.{length_of, with_length, copies_in, Copies, Layable, NodeLayable, list_laid, node_laid};

use layout::Arena;
use memory::lent::Lent;
use records::Range;
use walks::order::slot_of;
use words::NodeSlot;

// How many entries the copies in each arena take.
#[derive(Clone, Copy)]
pub struct Lengths {
    pub children: usize,
    pub attributes: usize,
    pub namespaces: usize,
}

impl Lengths {
    // The length in one arena.
    pub fn of(self, arena: Arena) -> usize
        ensures { result ≡ length_of self (which_of arena) }
    {
        match arena {
            Arena::Children => self.children,
            Arena::Attributes => self.attributes,
            Arena::Namespaces => self.namespaces,
        }
    }

    // Another length in one arena.
    fn with(self, arena: Arena, count: usize) -> Lengths
        ensures { result ≡ with_length self (which_of arena) count }
    {
        match arena {
            Arena::Children => Lengths {
                children: count,
                ..self
            },
            Arena::Attributes => Lengths {
                attributes: count,
                ..self
            },
            Arena::Namespaces => Lengths {
                namespaces: count,
                ..self
            },
        }
    }
}

// Lays a node's list; the lengths then.
fn lay_list(lent: &mut Lent<'_>, slot: NodeSlot, arena: Arena, used: Lengths) -> Lengths
    requires { Layable lent.old.document lent.old.words.now (which_of arena) slot.0 (length_of used (which_of arena)) }
    ensures copies { Copies lent.old.document lent.old.words.now lent.new.words.now result (list_laid (document_in lent.old) (copies_in lent.old.document lent.old.words.now used) (which_of arena) slot.0) }
    ensures lent_after { Becomes lent.old lent.new lent.old.document lent.new.words.now }
{
    let block = lent.view().live_block(slot, arena);
    let start = used.of(arena);
    lent.copy_block(arena, start, block);
    let range = Range {
        start: start as u32,
        len: block.len,
    };
    lent.put_range(slot, arena, range);
    used.with(arena, start + block.len as usize)
}

// Lays the lists of the node of a handle: attributes and namespaces only elements have.
pub fn lay_node(lent: &mut Lent<'_>, word: u64, used: Lengths) -> Lengths
    requires { NodeLayable lent.old.document lent.old.words.now word used }
    ensures copies { Copies lent.old.document lent.old.words.now lent.new.words.now result (node_laid (document_in lent.old) (copies_in lent.old.document lent.old.words.now used) word) }
    ensures lent_after { Becomes lent.old lent.new lent.old.document lent.new.words.now }
{
    let slot = slot_of(word);
    let children = lay_list(lent, slot, Arena::Children, used);
    if lent.view().is_element(slot) {
        let attributes = lay_list(lent, slot, Arena::Attributes, children);
        lay_list(lent, slot, Arena::Namespaces, attributes)
    } else {
        children
    }
}
