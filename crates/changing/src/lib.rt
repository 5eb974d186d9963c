// The public calls that change a node's text, an element's attributes and its namespaces.
#![tactic(auto)]

pub mod attribute;
pub mod namespace;
pub mod text;
