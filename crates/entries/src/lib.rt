// The structure rules that read the lists, the paths and the texts: rules 4, 6 and 8. The memory is only read.
#![tactic(auto)]

pub mod node_lists;
pub mod node_paths;
pub mod node_texts;
pub mod nodes;
