// The walks of the editing calls, with their stacks in scratch: the renewal of the order.
#![tactic(auto)]

pub mod list;
pub mod order;
pub mod stack;
