ghost use Rattle.std.specs.Prelude.{Some};
ghost use Rattle.towers.specs.Tray.{sided_regular, sided_tray, text_of};

use std::fmt;
use trays::Tray;

/// A tray of a sided tower.
#[derive(Clone, Copy, PartialEq, Eq, Debug)]
pub struct SidedTray {
    pub number: u8,
    /// Whether the door is turned away.
    pub away: bool,
}

impl Tray for SidedTray {
    ghost form = { sided_tray };

    ghost regular = { sided_regular };

    fn upright(number: u8) -> SidedTray {
        SidedTray {
            number,
            away: false,
        }
    }

    /// The number is the low seven bits, and from 128 on the door is turned away.
    fn from_byte(byte: u8) -> SidedTray {
        SidedTray {
            number: byte % 128,
            away: byte >= 128,
        }
    }

    fn number(&self) -> u8 {
        self.number
    }

    fn stands(&self, number: usize) -> bool {
        self.number as usize == number && !self.away
    }

    fn renumbered(&self, number: u8) -> SidedTray {
        SidedTray {
            number,
            away: self.away,
        }
    }
}

/// The number, after a minus sign where the door is turned away.
impl fmt::Display for SidedTray {
    ghost output = { λ t. Some (text_of t) };

    fn fmt<W: fmt::Write>(&self, f: &mut fmt::Formatter<W>) -> fmt::Result {
        let sign = if self.away { "-" } else { "" };
        let number = self.number;
        write!(f, "{sign}{number}")
    }
}
