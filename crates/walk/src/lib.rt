//! A walk over the states of a machine, depth first, with the turns made from its start on. It holds one machine, which goes down by a turn and comes back by the same turn.
#![tactic(auto)]

mod depth_record;
mod moved;
mod sheet;
mod step;
mod table;
mod trail;
mod walk;

pub use sheet::{SHEET_PLACES, Sheet};
pub use step::Step;
pub use walk::Walk;
