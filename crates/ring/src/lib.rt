//! The ring: trays on a circle, where a turn turns round a run of as many of them as the span says.

#![tactic(auto)]

mod tray_ring;

pub use tray_ring::TrayRing;
