//! A planner: it searches for the fewest turns that bring a machine home, in doses of looks, and waits between two grants where it is. It asks for no memory, and promises the same of every list of calls.
#![tactic(auto)]

mod answer;
mod call;
mod fault;
mod phase;
mod planner;
mod played;
mod progress;
mod seen;

pub use answer::Answer;
pub use call::Call;
pub use fault::Fault;
pub use planner::{HIGHEST_GRANT, HIGHEST_GRANT_SUM, Planner};
pub use played::{Played, play};
pub use search::HIGHEST_LIMIT;
pub use walk::{SHEET_PLACES, Sheet};
