ghost use Rattle.std.specs.Prelude.{min, max};
ghost use Rattle.trays.specs.AtHome.{AtHome};

use crate::arrangement::MOST_TRAYS;
use crate::tray::Tray;

/// The trays 1 to n as they stand at home, and none after them. n below 1 counts as 1, and above `MOST_TRAYS` as that.
pub fn home_trays<T: Tray>(n: u8) -> [T; MOST_TRAYS]
    ensures { AtHome T.form (max (min n MOST_TRAYS) 1) result }
{
    let count = n.clamp(1, MOST_TRAYS as u8) as usize;
    // A loop, since `array::from_fn` takes two to three times as long where the trays have sides.
    let mut trays = [T::upright(0); MOST_TRAYS];
    for (i, tray) in trays[..count].iter_mut().enumerate() {
        *tray = T::upright(i as u8 + 1);
    }
    trays
}
