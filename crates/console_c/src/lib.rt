//! The console as a static library for C: two calls of a console that lies in the caller's memory, and one for a whole
//! tape. Nothing is allocated, and the library keeps nothing between the calls.
#![tactic(auto)]

mod console_ran;
mod exports;
mod kept_console;
mod status;

pub use console_ran::ConsoleRan;
pub use exports::{console_alignment, console_new, console_replies, console_run, console_size};
pub use kept_console::KeptConsole;
pub use status::Status;
