// The reading calls: they test 4 only, change nothing, and cost what they show.
#![tactic(auto, unfolding(crate::specs::Contract::reads, crate::specs::Answers::entries_shown, crate::specs::Answers::text_bytes, crate::specs::Answers::name_bytes, crate::specs::Answers::order_shown))]

pub mod buffers;
pub mod list;
pub mod name;
pub mod node;
pub mod nodes;
pub mod order;
pub mod text;
