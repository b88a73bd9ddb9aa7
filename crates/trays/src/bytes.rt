ghost use Rattle.std.specs.Prelude.{◌≡◌, map};
ghost use Rattle.trays.specs.Bytes.{BlanksRead};

use crate::arrangement::MOST_TRAYS;
use crate::tray::Tray;
use std::array;

/// The trays that the bytes stand for.
#[tactic(auto, using(crate::proofs::BytesRead::blanks_read))]
pub fn read_trays<T: Tray>(bytes: &[u8; MOST_TRAYS]) -> [T; MOST_TRAYS]
    ensures blanks { BlanksRead T.form }
    ensures value { result ≡ map T.form.read bytes.now }
{
    // `map` of the array asks that an array of its items fits in memory, which nothing says of a generic T.
    array::from_fn(|i| T::from_byte(bytes[i]))
}
