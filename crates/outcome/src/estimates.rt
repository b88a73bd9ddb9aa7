ghost use Rattle.outcome.specs.Completed.{EstimatesOf};

use estimate::{DualLookup, Estimate, LookAhead, SuccessorEstimate};
use machine::Dual;

/// Estimates of the turns that a machine still needs.
#[derive(Clone, Copy, PartialEq, Eq, Debug)]
pub struct Estimates {
    /// the count of its kind
    pub count: u8,
    /// look-ahead over the count
    pub look_ahead: u8,
    /// dual lookup over look-ahead
    pub dual_lookup: u8,
}

/// What this estimate, look-ahead over it, and dual lookup over that tell of a machine.
pub fn estimates_of<M: Dual + Copy, E: SuccessorEstimate<M> + Copy>(
    machine: &M,
    estimate: E,
) -> Estimates
    ensures { EstimatesOf M.meaning M.mirror (E.value estimate) (M.state machine.now) result }
{
    let look_ahead = LookAhead { below: estimate };
    let dual_lookup = DualLookup { below: look_ahead };
    Estimates {
        count: estimate.ask(machine),
        look_ahead: look_ahead.ask(machine),
        dual_lookup: dual_lookup.ask(machine),
    }
}
