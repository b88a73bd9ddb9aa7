ghost use Rattle.machine.specs.Duals.{Duals, IsDual};

use crate::machine::Machine;

/// A machine with a dual. `mirror` says which state the dual is in.
pub trait Dual: Machine {
    ghost mirror: { Self.State → Self.State };

    /// The dual of this machine. A list of turns brings this machine home if its reverse brings the dual home, and only then.
    fn dual(&self) -> Self
        ensures { IsDual Self.meaning mirror (Self.state self.now) (Self.state result) };

    ghost duals: { Duals Self.meaning mirror };
}
