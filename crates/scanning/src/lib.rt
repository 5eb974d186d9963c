// One pass over a text by a rule: what a name, a text, a comment or PI data may be.
#![tactic(auto)]

pub mod scan;
