// The numbers of the kinds of nodes, as the first word of a record has them.
// Stays: no enum, since they are told of words that may be of no kind, for each slot of each editing call.
pub const ROOT: u64 = 0;

pub const ELEMENT: u64 = 1;

pub const ATTR: u64 = 2;

pub const TEXT: u64 = 3;

pub const COMMENT: u64 = 4;

pub const NAMESPACE: u64 = 5;

pub const PROCESSING_INSTRUCTION: u64 = 6;
