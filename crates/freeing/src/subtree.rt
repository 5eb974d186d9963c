// A node is freed with all below it.
ghost use Rattle.std.specs.Prelude.{◌≡◌, true, false, ◌≤◌, length};
ghost use Rattle.records.specs.Handles.{word_of};
ghost use Rattle.model.specs.Kinds.{is_root};
ghost use Rattle.model.specs.Doc.{resolves, kind_at};
ghost use Rattle.model.specs.Rules.{Rules};
ghost use Rattle.model.specs.Edits.{subtree, free_all};
ghost use Rattle.model.specs.Calls.{removed};
ghost use Rattle.layout.specs.Layout.{limits_of, scratch_words};
ghost use Rattle.memory.specs.Lent.{document_in, Stepped};
ghost use Rattle.freeing.specs.Freed.{free_all_slots};
ghost use Rattle.freeing.specs.Asked.{SubtreeFreeable, Reclaimable};

use crate::node::free_node;
use crate::release::reclaim_texts;
use edits::hooks::unhook;
use memory::lent::Lent;
use records::NodeId;
use walks::list::push_lists;
use walks::order::slot_of;
use walks::stack::Stack;

// Pushes children, attributes and namespaces, pops from the end, and frees each after pushing its own.
fn free_nodes(lent: &mut Lent<'_>, words: &mut [u64], id: NodeId)
    requires { (lent.old.document.limits.nodes ≤ length words.old) × SubtreeFreeable (document_in lent.old) (word_of id) }
    ensures step { Stepped lent.old lent.new (free_all_slots (document_in lent.old) (subtree (document_in lent.old) (word_of id))) }
    ensures reclaimable { Reclaimable (free_all_slots (document_in lent.old) (subtree (document_in lent.old) (word_of id))) }
{
    let mut stack = Stack::with_word(words, u64::from(id));
    while let Some(word) = stack.pop() {
        let slot = slot_of(word);
        push_lists(&lent.view(), &mut stack, slot);
        free_node(lent, slot);
    }
}

// Each text slot is on the free text list then, and the bytes of all are given back at once. Scratch holds the stack, then the marks.
fn free_subtree(lent: &mut Lent<'_>, scratch: &mut [u64], id: NodeId)
    requires { (lent.old.document.limits.nodes ≤ length scratch.old) × (lent.old.document.limits.texts ≤ length scratch.old) × SubtreeFreeable (document_in lent.old) (word_of id) }
    ensures { Stepped lent.old lent.new (free_all (document_in lent.old) (subtree (document_in lent.old) (word_of id))) }
{
    free_nodes(lent, scratch, id);
    reclaim_texts(lent, scratch);
}

// The node is taken off its parent, then freed with all below it. Scratch holds anything after.
pub fn do_remove(lent: &mut Lent<'_>, scratch: &mut [u64], id: NodeId)
    requires { (scratch_words (limits_of lent.old.document.limits) ≤ length scratch.old) × Rules (document_in lent.old) × (resolves (document_in lent.old) (word_of id) ≡ true) × (is_root (kind_at (document_in lent.old) (word_of id)) ≡ false) }
    ensures { Stepped lent.old lent.new (removed (document_in lent.old) (word_of id)) }
{
    unhook(lent, id);
    free_subtree(lent, scratch, id);
}
