// The lent memory of a document: what its words mean, the cuts of its regions, reading and writing steps over the whole buffer, and the view that test 4
// makes of it.
#![tactic(auto)]

pub mod block;
pub mod fields;
pub mod lent;
pub mod parts;
pub mod read;
pub mod stored;
pub mod view;
pub mod write;
