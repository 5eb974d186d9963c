// Full, as counted: slots, entries, texts and names.
#![tactic(auto)]

pub mod full;
