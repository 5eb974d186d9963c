// The public calls that append a child.
#![tactic(auto)]

pub mod comment;
pub mod element;
pub mod instruction;
pub mod text;
