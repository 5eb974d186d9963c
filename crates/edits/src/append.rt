// A new node goes to the end of a list.
ghost use Rattle.std.specs.Prelude.{◌≡◌};
ghost use Rattle.records.specs.Handles.{word_of};
ghost use Rattle.model.specs.Edits.{next_handle};
ghost use Rattle.model.specs.Calls.{append-element, append-text, append-comment, append-pi, made, appended};
ghost use Rattle.layout.specs.Layout.{which_of};
ghost use Rattle.memory.specs.Decode.{kind_of};
ghost use Rattle.memory.specs.Lent.{document_in, Stepped, Performs};
ghost use Rattle.memory.specs.Performed.{Admitted};
ghost use Rattle.edits.specs.Slot.{Newborn, Appendable};

use crate::born::{born, new_node};
use crate::interning::intern_name;
use crate::moves::attach_last;
use crate::storing::{store_text, store_two};
use layout::Arena;
use memory::lent::Lent;
use names::ExpandedName;
use records::{Node, NodeData, NodeId, Range};

// Its texts and its name are stored before.
pub fn append_node(lent: &mut Lent<'_>, arena: Arena, parent: NodeId, node: Node) -> NodeId
    requires { Appendable lent.old.document lent.old.words.now (which_of arena) (word_of parent) × Newborn node }
    ensures step { Stepped lent.old lent.new (appended (document_in lent.old) (which_of arena) (word_of parent) (kind_of node.«data») (document_in lent.old).pool (document_in lent.old).names) }
    ensures id_value { word_of result ≡ next_handle (document_in lent.old) }
{
    let made = born(lent, node);
    attach_last(lent, arena, parent, made);
    made
}

// ---- the calls, behind their plans: the name or the texts first, then the node

pub fn do_append_element(lent: &mut Lent<'_>, parent: NodeId, name: ExpandedName<'_>) -> NodeId
    requires { Admitted (append-element (word_of parent) name.namespace.now name.local.now) lent.old.document lent.old.words.now }
    ensures { Performs (append-element (word_of parent) name.entry.namespace.now name.entry.local.now) lent.old lent.new (made (word_of result)) }
{
    let interned = intern_name(lent, name);
    let node = new_node(NodeData::Element {
        name: interned,
        attributes: Range { start: 0, len: 0 },
        namespaces: Range { start: 0, len: 0 },
    });
    append_node(lent, Arena::Children, parent, node)
}

pub fn do_append_text(lent: &mut Lent<'_>, parent: NodeId, text: &[u8]) -> NodeId
    requires { Admitted (append-text (word_of parent) text.now) lent.old.document lent.old.words.now }
    ensures { Performs (append-text (word_of parent) text.now) lent.old lent.new (made (word_of result)) }
{
    let stored = store_text(lent, text);
    let node = new_node(NodeData::Text(stored));
    append_node(lent, Arena::Children, parent, node)
}

// Stays: a body in common with `do_append_text` would be given the constructor and, in its clauses, the call; each is three lines.
pub fn do_append_comment(lent: &mut Lent<'_>, parent: NodeId, text: &[u8]) -> NodeId
    requires { Admitted (append-comment (word_of parent) text.now) lent.old.document lent.old.words.now }
    ensures { Performs (append-comment (word_of parent) text.now) lent.old lent.new (made (word_of result)) }
{
    let stored = store_text(lent, text);
    let node = new_node(NodeData::Comment(stored));
    append_node(lent, Arena::Children, parent, node)
}

pub fn do_append_pi(lent: &mut Lent<'_>, parent: NodeId, target: &[u8], content: &[u8]) -> NodeId
    requires { Admitted (append-pi (word_of parent) target.now content.now) lent.old.document lent.old.words.now }
    ensures { Performs (append-pi (word_of parent) target.now content.now) lent.old lent.new (made (word_of result)) }
{
    let stored = store_two(lent, target, content);
    let node = new_node(NodeData::ProcessingInstruction {
        target: stored.first,
        data: stored.second,
    });
    append_node(lent, Arena::Children, parent, node)
}
