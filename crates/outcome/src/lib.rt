//! What comes of a line: the machine that it sets, and the turns, the dual, the estimates or the plan that it asks for; or why nothing was done.

#![tactic(auto)]

mod completed;
mod done;
mod estimates;
mod failure;
mod outcome;
mod planned;
mod verdict;

pub use completed::{Completed, complete};
pub use done::Done;
pub use estimates::{Estimates, estimates_of};
pub use failure::Failure;
pub use outcome::{Outcome, perform};
pub use planned::{Planned, plan_within};
