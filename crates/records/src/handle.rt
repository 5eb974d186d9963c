// A handle in one word, as arenas and stacks hold it.
ghost use Rattle.std.specs.Prelude.{◌≡◌};
ghost use Rattle.records.specs.Handles.{word_of, id_of};

use crate::NodeId;

// A handle's word: its index plus its generation × 2^32.
impl From<NodeId> for u64 {
    ghost from_gives = { λ id word. word ≡ word_of id };

    fn from(id: NodeId) -> u64 {
        id.index as u64 + id.generation as u64 * 4294967296
    }
}

// The handle that a word is: any word is one.
impl From<u64> for NodeId {
    ghost from_gives = { λ word id. id ≡ id_of word };

    fn from(word: u64) -> NodeId {
        NodeId {
            index: (word % 4294967296) as u32,
            generation: (word / 4294967296) as u32,
        }
    }
}
