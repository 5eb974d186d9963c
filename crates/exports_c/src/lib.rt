// The static library for programs in C and Rust: each export is the call of its name in `exports`.
// Stays: the C interface needs it: rt builds a crate as a library or as a static library, a library exports nothing, and no crate may use a static library, as `examples` uses `exports`.
#![tactic(auto)]

pub mod append;
pub mod change;
pub mod list;
pub mod moves;
pub mod order;
pub mod read;
pub mod remove;
pub mod show;
pub mod start;
pub mod walk;
