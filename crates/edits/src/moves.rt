// A node goes to the end of a list, or from one parent to another.
ghost use Rattle.std.specs.Prelude.{length};
ghost use Rattle.records.specs.Handles.{word_of};
ghost use Rattle.model.specs.Kinds.{children};
ghost use Rattle.model.specs.Doc.{list_at};
ghost use Rattle.model.specs.Edits.{unhook, attach};
ghost use Rattle.layout.specs.Layout.{which_of};
ghost use Rattle.model.specs.Calls.{detach, reparent, insert-at, done};
ghost use Rattle.memory.specs.Lent.{document_in, Stepped, Performs};
ghost use Rattle.memory.specs.Performed.{Admitted};
ghost use Rattle.edits.specs.Asked.{Attachable, Movable};

use crate::hooks::{attach, unhook};
use layout::Arena;
use memory::lent::Lent;
use records::NodeId;
use words::NodeSlot;

// A node without a parent goes to the end of a parent's block.
pub fn attach_last(lent: &mut Lent<'_>, arena: Arena, parent: NodeId, id: NodeId)
    requires { Attachable lent.old.document lent.old.words.now (which_of arena) (word_of parent) (word_of id) }
    ensures { Stepped lent.old lent.new (attach (document_in lent.old) (which_of arena) (word_of parent) (length (list_at (document_in lent.old) (which_of arena) (word_of parent))) (word_of id)) }
{
    let block = lent.view().block_of(NodeSlot(parent.index), arena);
    attach(lent, arena, parent, block.len as usize, id);
}

// A node goes to an index of a parent's children.
pub fn do_insert_at(lent: &mut Lent<'_>, parent: NodeId, at: usize, id: NodeId)
    requires { Movable lent.old.document lent.old.words.now (word_of parent) (word_of id) }
    ensures { Stepped lent.old lent.new (attach (unhook (document_in lent.old) (word_of id)) children (word_of parent) at (word_of id)) }
{
    unhook(lent, id);
    attach(lent, Arena::Children, parent, at, id);
}

// A node goes to the end of a parent's children.
pub fn do_reparent(lent: &mut Lent<'_>, parent: NodeId, id: NodeId)
    requires { Movable lent.old.document lent.old.words.now (word_of parent) (word_of id) }
    ensures { Stepped lent.old lent.new (attach (unhook (document_in lent.old) (word_of id)) children (word_of parent) (length (list_at (unhook (document_in lent.old) (word_of id)) children (word_of parent))) (word_of id)) }
{
    unhook(lent, id);
    attach_last(lent, Arena::Children, parent, id);
}

// ---- the calls, behind their plans

pub fn detach_node(lent: &mut Lent<'_>, id: NodeId)
    requires { Admitted (detach (word_of id)) lent.old.document lent.old.words.now }
    ensures { Performs (detach (word_of id)) lent.old lent.new done }
{
    unhook(lent, id);
}

pub fn move_last(lent: &mut Lent<'_>, parent: NodeId, id: NodeId)
    requires { Admitted (reparent (word_of id) (word_of parent)) lent.old.document lent.old.words.now }
    ensures { Performs (reparent (word_of id) (word_of parent)) lent.old lent.new done }
{
    do_reparent(lent, parent, id);
}

pub fn move_to(lent: &mut Lent<'_>, parent: NodeId, at: usize, id: NodeId)
    requires { Admitted (insert-at (word_of parent) at (word_of id)) lent.old.document lent.old.words.now }
    ensures { Performs (insert-at (word_of parent) at (word_of id)) lent.old lent.new done }
{
    do_insert_at(lent, parent, at, id);
}
