// Compaction: the arenas are rebuilt in place, list by list in the order of the trees, and the order is renewed.
#![tactic(auto)]

pub mod copy;
pub mod rebuild;
pub mod trees;
