// What the plans look up in the document: what a handle shows, the ways up, the root element, and nodes of a list by their bytes.
#![tactic(auto)]

pub mod finding;
pub mod paths;
pub mod root;
pub mod stored;
pub mod views;
