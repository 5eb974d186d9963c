// What the words show of a node, also in damaged memory: its blocks, its parent, and whether it is an element.
#![tactic(auto)]

pub mod shown;
