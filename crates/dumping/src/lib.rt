// The whole state of a document as lines.
#![tactic(auto)]

pub mod dump;
