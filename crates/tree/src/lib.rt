// The public calls over lent memory: their contracts, and the claim about every list of them.
#![tactic(auto)]

pub mod start;
