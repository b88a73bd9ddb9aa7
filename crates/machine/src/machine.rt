ghost use Rattle.std.specs.Prelude.{◌≡◌, ℕ};
ghost use Rattle.machine.specs.Meaning.{Meaning, Lawful};
ghost use Rattle.machine.specs.Turned.{Turned};

use crate::fault::Fault;
use crate::turn_range::TurnRange;

/// A machine with turns. `meaning` says what its states, turns and home are, and `state` which state this machine is in.
pub trait Machine {
    /// What the turns change. A machine may be its own state.
    type State;

    /// The command letter of the kind.
    const LETTER: u8;

    /// The least number of trays that a machine of the kind has.
    const LEAST: u8;

    // the values of the two constants, for clauses
    ghost LETTER: { ℕ };

    ghost LEAST: { ℕ };

    ghost meaning: { Meaning Self.State };

    ghost state: { Self → Self.State };

    /// The turns that the machine has at this state.
    fn range(&self) -> TurnRange
        ensures lowest { result.lowest ≡ meaning.lowest (state self.now) }
        ensures highest { result.highest ≡ meaning.highest (state self.now) };

    /// Whether the machine is home.
    fn is_home(&self) -> bool
        ensures { result ≡ meaning.home (state self.now) };

    /// Makes turn k, or refuses it by `NoSuchTurn` and changes nothing.
    fn turn(&mut self, k: u8) -> Result<(), Fault>
        ensures { Turned meaning state self.old k result self.new };

    ghost lawful: { Lawful meaning };
}
