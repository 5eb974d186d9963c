// A node is taken off its parent and freed with all below it.
ghost use Rattle.std.specs.Prelude.{◌≡◌, ◌≤◌, true, false, length, replicate};
ghost use Rattle.records.specs.Handles.{word_of};
ghost use Rattle.model.specs.Kinds.{is_root};
ghost use Rattle.model.specs.Doc.{resolves, kind_at};
ghost use Rattle.model.specs.Calls.{remove, removed};
ghost use Rattle.model.specs.Rules.{Rules};
ghost use Rattle.layout.specs.Layout.{limits_of, scratch_words};
ghost use Rattle.memory.specs.Lent.{document_in, Stepped};
ghost use Rattle.editing.specs.Contract.{Edits};
ghost use Rattle.editing.specs.Answers.{of_done, after_done};

use editing::admission::admit;
use freeing::subtree::do_remove;
use layout::Document;
use memory::lent::Lent;
use model::Refusal;
use plans::removals::plan_remove;
use records::NodeId;

// The stack of the walk stood in scratch, which is cleared again.
pub fn remove_node(lent: &mut Lent<'_>, scratch: &mut [u64], id: NodeId)
    requires scratch_value { scratch_words (limits_of lent.old.document.limits) ≤ length scratch.old }
    requires rules { Rules (document_in lent.old) }
    requires id_value { (resolves (document_in lent.old) (word_of id) ≡ true) × (is_root (kind_at (document_in lent.old) (word_of id)) ≡ false) }
    ensures step { Stepped lent.old lent.new (removed (document_in lent.old) (word_of id)) }
    ensures scratch_after { scratch.new ≡ replicate (length scratch.old) 0 }
{
    do_remove(lent, scratch, id);
    scratch.fill(0);
}

// Rules out a node below it that still resolves, and a text slot that is not given back.
pub fn remove(
    d: Document,
    mem: &mut [u64],
    scratch: &mut [u64],
    id: NodeId,
) -> Result<Document, Refusal>
    ensures { Edits (remove (word_of id)) d mem.old scratch.old (of_done result) (after_done d result) mem.new scratch.new }
{
    let doc = admit(d, mem, scratch)?;
    plan_remove(&doc.view, id)?;
    let mut lent = Lent {
        document: d,
        words: mem,
    };
    remove_node(&mut lent, scratch, id);
    Ok(lent.document)
}
