// Verdicts, and the checks of byte arguments: what a plan decides without the document.
#![tactic(auto)]

pub mod arguments;
pub mod verdict;
