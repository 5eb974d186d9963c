// The public calls for programs in C and Rust: numbers and slices alone, and a document's record as words that are lent.
#![tactic(auto)]

pub mod append;
pub mod change;
pub mod list;
pub mod moves;
pub mod order;
pub mod read;
pub mod remove;
pub mod show;
pub mod start;
pub mod walk;
