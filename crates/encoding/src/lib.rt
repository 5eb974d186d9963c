// A document's record, the answers of calls and the position of a walk as numbers in lent slices, for programs in C and Rust.
#![tactic(auto)]

pub mod answer;
pub mod numbers;
pub mod positions;
pub mod record;
