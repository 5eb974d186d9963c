// The classes of code points in names: from a table below 2,048, by ranges from there on.
#![tactic(auto)]

pub mod class;
mod table;
