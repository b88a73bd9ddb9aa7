ghost use Rattle.std.specs.Prelude.{◌≡◌, min, length, map, take, drop, None, replicate};
ghost use Rattle.planner.specs.Calls.{on_state};
ghost use Rattle.planner.specs.Promise.{Run};
ghost use Rattle.planner.specs.Since.{KeepsPromise};
ghost use Rattle.planner.specs.declared.call.Call.TheVariants.{Fetch};
ghost use Rattle.walk.specs.declared.sheet.TheConstants.{SHEET_PLACES};

use crate::answer::Answer;
use crate::call::Call;
use crate::fault::Fault;
use crate::planner::Planner;
use estimate::Estimate;
use machine::Machine;
use walk::{SHEET_PLACES, Sheet};

/// What was replied to a call of a run, and the sheet after it.
#[derive(Clone, Copy, PartialEq, Eq, Debug)]
pub struct Played {
    /// the answer, or why the call was refused
    pub reply: Result<Answer, Fault>,
    /// the sheet after the call
    pub sheet: Sheet,
}

/// Plays the calls on a new planner, one after the other, as many as there is room for replies, and answers how many. The planner holds the machine until the first load. A call that is played is taken out, and a fetch stands in its place.
pub fn play<M: Machine + Drop, E: Estimate<M> + Drop>(
    machine: M,
    estimate: E,
    calls: &mut [Call<M>],
    replies: &mut [Played],
) -> usize
    ensures count { result ≡ min (length calls.old) (length replies.old) }
    ensures run { Run M.meaning (E.value estimate) None (replicate SHEET_PLACES 0)
        (map (on_state M.state) (take result calls.old)) (take result replies.new) }
    ensures promise { KeepsPromise M.meaning (E.value estimate) None
        (map (on_state M.state) (take result calls.old)) (take result replies.new) }
    ensures other_replies { drop result replies.new ≡ drop result replies.old }
    ensures taken { take result calls.new ≡ replicate result Fetch }
    ensures other_calls { drop result calls.new ≡ drop result calls.old }
{
    let mut sheet = [0; SHEET_PLACES];
    Planner::new(machine, estimate).play(calls, &mut sheet, replies)
}
