//! The console of a head: a planner of each kind of machine behind the tape. It runs the command at a place, or a whole tape, and asks for no memory.

#![tactic(auto)]

mod console;
mod load;
mod ran;
mod replies;

pub use console::{Console, GO_GRANT, LONGEST_TAPE};
pub use ran::Ran;
pub use replies::{LONGEST_REPLIES, write_replies};
