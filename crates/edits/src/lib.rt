// The writing half of the editing calls: steps over the lent buffer that do not refuse any more, each one change of the decoded document.
#![tactic(auto)]

pub mod append;
pub mod attributes;
pub mod born;
pub mod hooks;
pub mod interning;
pub mod moves;
pub mod replace;
pub mod storing;
