ghost use Rattle.std.specs.Prelude.{◌≡◌, IfErr, IfOk};
ghost use Rattle.text.specs.Lines.{asked};
ghost use Rattle.trays.specs.Settable.{holding_of};
ghost use Rattle.outcome.specs.Completed.{AsksMemory, Attempted, Does};

use crate::done::Done;
use crate::estimates::estimates_of;
use crate::failure::Failure;
use crate::planned::plan_within;
use estimate::{DualLookup, LookAhead, SuccessorEstimate};
use machine::{Dual, follow};
use std::alloc::{AllocError, Global};
use text::Action;
use trays::{Kind, Settable, Setup};

/// A machine as it was set, and what was done with it.
#[derive(Drop)]
pub struct Completed<M> {
    pub start: M,
    pub done: Done<M>,
}

/// Makes the turns, finds the dual, estimates the turns that are needed, or finds a plan. The search for it asks dual lookup over look-ahead over the estimate.
pub fn complete<M: Dual + Copy, E: SuccessorEstimate<M> + Copy>(
    heap: Global,
    start: M,
    estimate: E,
    action: Action,
) -> Result<Completed<M>, AllocError>
    ensures start { IfOk result (λ c. c.start ≡ start) }
    ensures no_memory { IfErr result (λ _. AsksMemory (asked action)) }
    ensures done { IfOk result (λ c. Does M.meaning M.mirror M.state (E.value estimate)
        start (asked action) c.done) }
{
    match action {
        Action::Turns(turns) => {
            let trace = follow(heap, start, &turns)?;
            Ok(Completed {
                start,
                done: Done::Followed { turns, trace },
            })
        }
        Action::Dual => Ok(Completed {
            start,
            done: Done::Mirrored(start.dual()),
        }),
        Action::Estimate => Ok(Completed {
            start,
            done: Done::Estimated(estimates_of(&start, estimate)),
        }),
        Action::Plan { limit, looks } => {
            let look_ahead = LookAhead { below: estimate };
            let dual_lookup = DualLookup { below: look_ahead };
            let planned = plan_within(heap, start, dual_lookup, limit, looks)?;
            Ok(Completed {
                start,
                done: Done::Planned { limit, planned },
            })
        }
    }
}

// Sets a machine of this kind and does what is to be done with it; or answers why it was not set.
pub(crate) fn attempt<M: Settable + Dual + Copy, E: SuccessorEstimate<M> + Copy>(
    heap: Global,
    kind: Kind,
    estimate: E,
    setup: &Setup<M::Span>,
    action: Action,
) -> Result<Completed<M>, Failure>
    ensures { Attempted kind M.form M.LEAST M.holding M.meaning M.mirror M.state (E.value estimate)
        (holding_of M.form M.spanning setup.now) (asked action) result }
{
    let mut start = M::new();
    start
        .set(setup)
        .map_err(|fault| Failure::Refused { kind, fault })?;
    Ok(complete(heap, start, estimate, action)?)
}
