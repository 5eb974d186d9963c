// Generations with the free stack, node records, and order words, in one lent part of 15 words a slot. No tree is known here.
#![tactic(auto)]

pub mod region;
pub mod rule;
pub mod slot;
