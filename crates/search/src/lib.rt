//! What a search for the fewest turns is, as definitions and theorems, and the one part of it that is code: the threshold of the first round. The planner makes the search, look by look.
#![tactic(auto)]

mod limit;
mod threshold;

pub use limit::HIGHEST_LIMIT;
pub use threshold::first_threshold;
