// Laying the blocks of one arena end to end. The copies stand in the capacity words, which compaction clears, until they replace the ids.
ghost use Rattle.std.specs.Prelude.{◌≡◌, ◌+◌, ◌≤◌, length};
ghost use Rattle.blocks.specs.Arena.{arena_words};
ghost use Rattle.blocks.specs.Compact.{copied, BlockCopied};

use crate::Block;

// Copies the block after the used entries that were copied before.
pub fn copy_block(arena: &mut [u64], limit: usize, used: usize, block: Block)
    requires arena_len { length arena.old ≡ limit + limit }
    requires len_bound { (block.start + block.len ≤ limit) × (used + block.len ≤ limit) }
    ensures { BlockCopied arena.old arena.new limit used block.start block.len }
{
    words::copy(arena, block.start, block.len, limit + used);
}

// The copies, used entries in all, replace the ids, and no capacity is recorded.
pub fn replace_blocks(arena: &mut [u64], limit: usize, used: usize)
    requires { (length arena.old ≡ limit + limit) × (used ≤ limit) }
    ensures { arena.new ≡ arena_words (copied limit used arena.old) }
{
    words::copy(arena, limit, used, 0);
    words::fill(arena, limit, limit, 0);
}
