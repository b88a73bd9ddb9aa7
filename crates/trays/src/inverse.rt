ghost use Rattle.std.specs.Prelude.{◌≡◌, min};
ghost use Rattle.trays.specs.Permutation.{Inverts, inverse};

use crate::arrangement::MOST_TRAYS;
use crate::tray::Tray;

/// The inverse of the first n trays, at most `MOST_TRAYS`: where place i holds tray j, place j holds tray i, on the same side. A number outside 1 to `MOST_TRAYS` has no place, and of a number that stands twice the last place counts. An `Arrangement` would ask for more of the trays than this does.
#[tactic(auto, using(crate::proofs::PlacesFilled::placing))]
pub fn invert<T: Tray>(n: u8, trays: &[T; MOST_TRAYS]) -> [T; MOST_TRAYS]
    ensures law { Inverts T.form }
    ensures value { result ≡ inverse T.form (min n MOST_TRAYS) trays.now }
{
    let mut places = [T::upright(0); MOST_TRAYS];
    for (i, tray) in trays[..(n as usize).min(MOST_TRAYS)].iter().enumerate() {
        let number = tray.number() as usize;
        if (1..=MOST_TRAYS).contains(&number) {
            places[number - 1] = tray.renumbered(i as u8 + 1);
        }
    }
    places
}
