// The public calls that renew the order.
#![tactic(auto)]

pub mod compact;
pub mod order;
