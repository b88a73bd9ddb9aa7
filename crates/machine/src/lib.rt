//! A machine that has turns and a home: what it means, why it refuses, what its dual is, and the states that a list of turns leads through. What the machines turn is left to the crates above.

#![tactic(auto)]

mod dual;
mod ending;
mod fault;
mod machine;
mod trace;
mod turn_range;

pub use dual::Dual;
pub use ending::Ending;
pub use fault::Fault;
pub use machine::Machine;
pub use trace::{Trace, follow};
pub use turn_range::{HIGHEST_TURN, TurnRange};
