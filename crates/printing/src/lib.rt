// The answers of calls as lines, behind what waits to be written.
#![tactic(auto)]

pub mod show;
pub mod sink;
