// The plans of the editing calls: they only read, and decide every refusal, Full last, before a word is written.
#![tactic(auto)]

pub mod appends;
pub mod listing;
pub mod lists;
pub mod moves;
pub mod removals;
pub mod setting;
