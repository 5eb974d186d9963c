// The lines of a call list as calls.
#![tactic(auto)]

pub mod parse;
