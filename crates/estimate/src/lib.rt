//! Estimates of how many turns a machine still needs: what one owes, and two that are built over another, look-ahead and dual lookup.

#![tactic(auto)]

mod dual_lookup;
mod estimate;
mod look_ahead;
mod successor_estimate;

pub use dual_lookup::DualLookup;
pub use estimate::{Estimate, HIGHEST_ESTIMATE};
pub use look_ahead::LookAhead;
pub use successor_estimate::SuccessorEstimate;
