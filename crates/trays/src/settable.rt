ghost use Rattle.std.specs.Prelude.{◌≡◌, ℕ, IsTrue, take, Option};
ghost use Rattle.trays.specs.Form.{TrayForm};
ghost use Rattle.trays.specs.Settable.{Holding, Sets, holding_of};

use crate::setup::Setup;
use machine::{Fault, Machine};

/// A machine that can be set. `form` says what its trays are, and `holding` what it holds.
pub trait Settable: Machine {
    /// What it holds.
    type Tray;

    /// A byte where the kind has a span, and else nothing.
    type Span;

    ghost form: { TrayForm Self.Tray };

    // the span that a setup gives
    ghost spanning: { Self.Span → Option ℕ };

    ghost holding: { Self → Holding Self.Tray };

    // A machine is fixed by what it holds.
    ghost fixed: { (s t : Self) → holding s ≡ holding t → s ≡ t };

    // the span of a new machine
    ghost first: { Option ℕ };

    /// The machine of the kind's least number of trays, which is home.
    fn new() -> Self
        ensures count { (holding result).count ≡ Self.LEAST }
        ensures span { (holding result).span ≡ first }
        ensures home { IsTrue (Self.meaning.home (Self.state result)) };

    /// The trays that it holds, from the top or from place 1 on.
    fn trays(&self) -> &[Self::Tray]
        ensures { result.now ≡ take (holding self.now).count (holding self.now).trays };

    /// Makes this the machine of the first n bytes, where the other bytes are 0; or refuses them and changes nothing.
    fn set(&mut self, setup: &Setup<Self::Span>) -> Result<(), Fault>
        ensures { Sets form Self.LEAST holding self.old (holding_of form spanning setup.now) result self.new };
}
