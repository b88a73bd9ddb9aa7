//! The plain and the sided tower: one tower that is generic over its trays, what a tray of a tower owes, and the trays with a door side.

#![tactic(auto)]

mod sided_tray;
mod tower;
mod tower_tray;

pub use sided_tray::SidedTray;
pub use tower::{PlainTower, SidedTower, Tower};
pub use tower_tray::TowerTray;
