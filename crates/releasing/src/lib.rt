// Texts released: their slots go on the stack, and their bytes are given back in one pass.
#![tactic(auto)]

pub mod release;
