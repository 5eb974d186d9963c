// One step of a walk under a node: a position passed by value, and the next node from it.
#![tactic(auto)]

pub mod position;
pub mod step;
