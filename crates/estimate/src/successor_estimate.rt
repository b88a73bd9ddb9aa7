ghost use Rattle.std.specs.Prelude.{◌≡◌};
ghost use Rattle.machine.specs.Meaning.{InRange};
ghost use Rattle.estimate.specs.Layers.{least_after};

use crate::estimate::Estimate;
use machine::{Machine, TurnRange};

/// An estimate that can be asked for the least number after one turn. The body here asks again after each turn, made on a copy; an estimate that needs no turn for that has a body of its own.
pub trait SuccessorEstimate<M: Machine + Copy>: Estimate<M> {
    /// The least number after one turn, or `None` where there is no turn.
    fn least_after(&self, machine: &M) -> Option<u8>
        ensures { result ≡ least_after M.meaning (Self.value self.now) (M.state machine.now) }
    {
        least_of_copies(machine, self)
    }
}

// The least of the estimate after each turn, made on a copy, where there is a turn.
fn least_of_copies<M: Machine + Copy, E: Estimate<M>>(machine: &M, estimate: &E) -> Option<u8>
    ensures { result ≡ least_after M.meaning (E.value estimate.now) (M.state machine.now) }
{
    let TurnRange { lowest, highest } = machine.range();
    (lowest..=highest)
        .map(|k| ask_after(machine, estimate, k))
        .reduce(u8::min)
}

// The estimate after turn k.
fn ask_after<M: Machine + Copy, E: Estimate<M>>(machine: &M, estimate: &E, k: u8) -> u8
    requires { InRange M.meaning (M.state machine.now) k }
    ensures { result ≡ E.value estimate.now (M.meaning.after (M.state machine.now) k) }
{
    let mut next = *machine;
    next.turn(k).unwrap();
    estimate.ask(&next)
}
