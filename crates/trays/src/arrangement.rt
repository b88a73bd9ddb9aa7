ghost use Rattle.std.specs.Prelude.{◌≡◌, ℕ, ◌≤◌, ⊤, IsTrue, min, max, map, take, MatchResult};
ghost use Rattle.trays.specs.declared.arrangement.TheConstants.{MOST_TRAYS};
ghost use Rattle.trays.specs.AtHome.{AtHome};
ghost use Rattle.trays.specs.Permutation.{in_order, inverse, permutation};
ghost use Rattle.trays.specs.Settable.{Accepted, Refused, Sets, Spanned};

use crate::bytes::read_trays;
use crate::check::check_trays;
use crate::first::home_trays;
use crate::inverse::invert;
use crate::order::is_in_order;
use crate::setup::Setup;
use crate::tray::Tray;
use machine::Fault;
use std::alloc::AllocError;

/// How many trays a machine has at most, and how many places.
pub const MOST_TRAYS: usize = 32;

// The number stands beside an array: a `Vec` would ask for memory, which a machine does not, and the library's `ArrayVec` is no `Copy`.
/// n trays in `MOST_TRAYS` places: the first n places have the numbers 1 to n, each once, and the others no tray.
pub struct Arrangement<T: Tray> {
    /// how many trays
    pub n: u8,
    /// the trays, and `T::upright(0)` in each place after them
    pub trays: [T; MOST_TRAYS],
    ghost least: { 1 ≤ n },
    ghost most: { n ≤ MOST_TRAYS },
    ghost each_once: { IsTrue (permutation T.form n trays) },
}

// By hand, since the prover refuses to derive `Clone` for a generic struct with ghost fields (derive-over-ghost-field).
impl<T: Tray> Clone for Arrangement<T> {
    ghost is_clone = { λ a copy. copy ≡ a };

    ghost is_infallible = { λ _. ⊤ };

    fn clone(&self) -> Result<Arrangement<T>, AllocError> {
        Ok(*self)
    }
}

impl<T: Tray> Copy for Arrangement<T> {}

impl<T: Tray> Arrangement<T> {
    ghost use Rattle.trays.specs.Arranged.{arranged};

    /// The trays 1 to n as they stand at home. n below 1 counts as 1, and above `MOST_TRAYS` as that.
    pub fn home(n: u8) -> Arrangement<T>
        ensures count { result.n ≡ max (min n MOST_TRAYS) 1 }
        ensures home { AtHome T.form result.n result.trays }
    {
        Arrangement::accepted(n.clamp(1, MOST_TRAYS as u8), home_trays(n))
    }

    /// The arrangement of the first n bytes, where the other bytes are 0; or why there is none. A least number below 1 counts as 1.
    pub fn from_setup(least: u8, setup: &Setup<Option<u8>>) -> Result<Arrangement<T>, Fault>
        ensures { MatchResult result
            (λ a. (a.n ≡ setup.now.n)
            × (a.trays ≡ map T.form.read setup.now.bytes)
            × Spanned setup.now.n setup.now.span
            × Accepted T.form (max least 1) setup.now.n a.trays)
            (λ f. Refused T.form (max least 1) setup.now.n setup.now.span
            (map T.form.read setup.now.bytes) f) }
    {
        let mut arrangement = Arrangement::home(1);
        arrangement.set(least, setup.span, setup)?;
        Ok(arrangement)
    }

    // In place, since an arrangement that is handed over in a `Result` is copied twice.
    /// Makes this the arrangement of the first n bytes, where the other bytes are 0; or refuses the number, the span or the bytes, and changes nothing. The span that the setup has is not looked at. A least number below 1 counts as 1.
    pub fn set<S>(&mut self, least: u8, span: Option<u8>, setup: &Setup<S>) -> Result<(), Fault>
        ensures { Sets T.form (max least 1) (arranged span) self.old
            (record { count = setup.now.n; span = span; trays = map T.form.read setup.now.bytes })
            result self.new }
    {
        let trays = read_trays(&setup.bytes);
        check_trays(least.max(1), setup.n, span, &trays)?;
        *self = Arrangement::accepted(setup.n, trays);
        Ok(())
    }

    // The arrangement of trays that have passed every check.
    fn accepted(n: u8, trays: [T; MOST_TRAYS]) -> Arrangement<T>
        requires least { 1 ≤ n }
        requires accepted { (least : ℕ) × Accepted T.form least n trays }
        ensures count { result.n ≡ n }
        ensures trays { result.trays ≡ trays }
    {
        Arrangement { n, trays }
    }

    /// The trays from place 1 on.
    pub fn trays(&self) -> &[T]
        ensures { result.now ≡ take self.now.n self.now.trays }
    {
        &self.trays[..self.n as usize]
    }

    /// Whether the trays stand as at home.
    pub fn is_home(&self) -> bool
        ensures { result ≡ in_order T.form (take self.now.n self.now.trays) }
    {
        is_in_order(self.trays())
    }

    /// The arrangement whose trays and places have changed parts.
    #[tactic(auto, using(crate::proofs::Inverses::inverse_kept))]
    pub fn inverted(&self) -> Arrangement<T>
        ensures count { result.n ≡ self.now.n }
        ensures trays { result.trays ≡ inverse T.form self.now.n self.now.trays }
    {
        Arrangement {
            n: self.n,
            trays: invert(self.n, &self.trays),
        }
    }
}
