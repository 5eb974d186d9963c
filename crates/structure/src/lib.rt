// The structure check: Damaged exactly when a structure rule is broken. The memory is only read.
#![tactic(auto)]

pub mod arenas;
pub mod check;
pub mod each;
pub mod fields;
pub mod free;
pub mod node;
pub mod parents;
pub mod pool;
pub mod root;
