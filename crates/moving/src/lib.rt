// The public calls that put a node under another parent.
#![tactic(auto)]

pub mod moves;
