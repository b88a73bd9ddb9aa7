ghost use Rattle.std.specs.Prelude.{◌≡◌, ℕ, true, ◌≤◌};
ghost use Rattle.std.proofs.Common.{le_refl, le-add_right};

use crate::sided_tray::SidedTray;
use trays::Tray;

/// A tray that towers are made of. Each kind of tower has its own.
pub trait TowerTray: Tray {
    /// The command letter of the kind of tower.
    const LETTER: u8;

    /// The lowest turn of the kind.
    const LOWEST: u8;

    // the values of the two constants, for clauses
    ghost LETTER: { ℕ };

    ghost LOWEST: { ℕ };

    /// The tray on its other side, where it has sides.
    fn turned_over(self) -> Self
        ensures { result ≡ Self.form.sided true self };

    ghost from_one: { 1 ≤ LOWEST };
}

// The trays of a plain tower. A turn of one tray would change nothing.
impl TowerTray for u8 {
    const LETTER: u8 = b'P';

    const LOWEST: u8 = 2;

    ghost LETTER = { 80 };

    ghost LOWEST = { 2 };

    ghost from_one = { le-add_right 1 1 };

    fn turned_over(self) -> u8 {
        self
    }
}

// The trays of a sided tower.
impl TowerTray for SidedTray {
    const LETTER: u8 = b'S';

    const LOWEST: u8 = 1;

    ghost LETTER = { 83 };

    ghost LOWEST = { 1 };

    ghost from_one = { le_refl 1 };

    fn turned_over(self) -> SidedTray {
        SidedTray {
            number: self.number,
            away: !self.away,
        }
    }
}
