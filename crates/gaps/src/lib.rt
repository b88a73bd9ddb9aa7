//! Estimates of the three kinds that count neighbours which are apart: the gaps of a plain tower, the breakpoints of a sided tower, and half the gaps of a ring.

#![tactic(auto)]

mod apart_count;
mod count;
mod half_gaps;
mod neighbour;

pub use apart_count::{
    ApartCount, ApartCount as Breakpoints, ApartCount as Gaps, count_breakpoints, count_gaps,
};
pub use half_gaps::{HalfGaps, count_ring_gaps};
pub use neighbour::Neighbour;
