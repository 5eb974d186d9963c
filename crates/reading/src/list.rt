// The lists of a node, each as its block, and the handles in a block.
ghost use Rattle.std.specs.Prelude.{◌≡◌};
ghost use Rattle.records.specs.Handles.{word_of};
ghost use Rattle.model.specs.Kinds.{children, attributes, namespaces};
ghost use Rattle.model.specs.Calls.{children-of, attribute-nodes, namespace-nodes};
ghost use Rattle.layout.specs.Layout.{which_of};
ghost use Rattle.memory.specs.Decode.{block_of};
ghost use Rattle.reading.specs.Answers.{of_list, entries_shown};
ghost use Rattle.reading.specs.Contract.{reads, list_call};

use layout::{Arena, Document};
use memory::view::View;
use model::Refusal;
use records::{NodeId, Range};
use showing::shown::shown_block;

// The list of a node in an arena, as its block. Rules out the list of a stale handle, and a block that ends past the arena's length.
pub fn list(d: Document, mem: &[u64], id: NodeId, arena: Arena) -> Result<Range, Refusal>
    ensures { of_list d mem.now (which_of arena) result ≡ reads (list_call (which_of arena) (word_of id)) d mem.now }
{
    let view = View::of(d, mem)?;
    Ok(shown_block(&view, id, arena))
}

// Rules out the attributes of an element in place of its children.
pub fn children(d: Document, mem: &[u64], id: NodeId) -> Result<Range, Refusal>
    ensures { of_list d mem.now children result ≡ reads (children-of (word_of id)) d mem.now }
{
    list(d, mem, id, Arena::Children)
}

// Rules out a list of attributes for the Root, and the namespaces of an element in place of its attributes.
pub fn attribute_nodes(d: Document, mem: &[u64], id: NodeId) -> Result<Range, Refusal>
    ensures { of_list d mem.now attributes result ≡ reads (attribute-nodes (word_of id)) d mem.now }
{
    list(d, mem, id, Arena::Attributes)
}

// Rules out a list of namespaces for the Root, and the attributes of an element in place of its namespaces.
pub fn namespace_nodes(d: Document, mem: &[u64], id: NodeId) -> Result<Range, Refusal>
    ensures { of_list d mem.now namespaces result ≡ reads (namespace-nodes (word_of id)) d mem.now }
{
    list(d, mem, id, Arena::Namespaces)
}

// The handles of a block, as a part of the memory. Rules out words past the arena's length, and those of another arena.
pub fn entries(d: Document, mem: &[u64], arena: Arena, block: Range) -> &[u64]
    ensures { result.now ≡ entries_shown d mem.now (which_of arena) (block_of block) }
{
    let end = block.start as usize + block.len as usize;
    match View::of(d, mem) {
        Ok(view) if end <= memory::read::arena_used(d, arena) => view.block_words(arena, block),
        _ => &[],
    }
}
