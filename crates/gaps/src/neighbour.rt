ghost use Rattle.std.specs.Prelude.{◌≡◌, Bool};
ghost use Rattle.gaps.specs.Counts.{breakpoint, gap, signed};
ghost use Rattle.gaps.specs.Laws.{breakpoint_apart, gap_apart};
ghost use Rattle.trays.specs.Apart.{Apart};

use towers::{SidedTray, TowerTray};

/// A tray of a tower that tells whether it is apart from the one below.
pub trait Neighbour: TowerTray {
    ghost apart: { Self → Self → Bool };

    /// Whether a turn is needed between the two.
    fn is_apart(self, below: Self) -> bool
        ensures { result ≡ apart self below };

    ghost lawful: { Apart Self.form apart };
}

/// Two trays of a plain tower are apart where they differ by more than 1: a gap.
impl Neighbour for u8 {
    ghost apart = { gap };

    ghost lawful = { gap_apart };

    fn is_apart(self, below: u8) -> bool {
        self.abs_diff(below) > 1
    }
}

/// Two trays of a sided tower are apart, which is a breakpoint, unless the lower one, with its sign, is the upper one plus 1.
impl Neighbour for SidedTray {
    ghost apart = { breakpoint };

    ghost lawful = { breakpoint_apart };

    fn is_apart(self, below: SidedTray) -> bool {
        signed(below) != signed(self) + 1
    }
}

// The number of a tray, negative where its door is turned away.
fn signed(tray: SidedTray) -> i16
    ensures { result ≡ signed tray }
{
    let number = i16::from(tray.number);
    if tray.away { -number } else { number }
}
