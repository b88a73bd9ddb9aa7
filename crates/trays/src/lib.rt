//! What the kinds of machine share: trays, in an arrangement or as they are set, with the rules for setting a machine and the turns and the dual of every kind.

#![tactic(auto)]

mod arrangement;
mod bytes;
mod check;
mod first;
mod inverse;
mod kind;
mod order;
mod run;
mod settable;
mod setup;
mod tray;

pub use arrangement::{Arrangement, MOST_TRAYS};
pub use bytes::read_trays;
pub use check::check_trays;
pub use first::home_trays;
pub use inverse::invert;
pub use kind::Kind;
pub use order::is_in_order;
pub use run::place_on;
pub use settable::Settable;
pub use setup::Setup;
pub use tray::Tray;
