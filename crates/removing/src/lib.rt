// The public calls that take a node off its parent.
#![tactic(auto)]

pub mod attribute;
pub mod detach;
pub mod remove;
