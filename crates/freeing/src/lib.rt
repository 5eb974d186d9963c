// The writing half of `remove`: a node is taken off its parent, and freed with all below it.
#![tactic(auto)]

pub mod node;
pub mod release;
pub mod subtree;
