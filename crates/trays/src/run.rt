ghost use Rattle.std.specs.Prelude.{◌≡◌};
ghost use Rattle.trays.specs.Run.{place_on};

/// The place that lies j steps on from place `from` of a ring of n, counted round: the first follows the last. Places count from 0, and one past the last is counted on from the first once.
pub fn place_on(n: u8, from: u8, j: u8) -> usize
    ensures { result ≡ place_on n from j }
{
    let n = n as usize;
    let place = from as usize + j as usize;
    if place < n { place } else { place - n }
}
