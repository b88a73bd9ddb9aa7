//! The bytes of a tape: commands with their operands and places, refusals, and replies.

#![tactic(auto)]

mod command;
mod fault;
mod placed;
mod refusal;
mod reply;

pub use command::Command;
pub use fault::Fault;
pub use placed::Placed;
pub use refusal::Refusal;
pub use reply::{LONGEST_REPLY, write_reply};
