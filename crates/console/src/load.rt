ghost use Rattle.std.specs.Prelude.{◌≡◌, true, Option, Some, IfErr, MatchResult, drop, slice_index};
ghost use Rattle.planner.specs.Calls.{Task, at_work, doing};
ghost use Rattle.planner.specs.Holds.{Holds, estimate_of};
ghost use Rattle.console.specs.Loads.{Loads};
ghost use Rattle.trays.specs.Settable.{holding_of};

use estimate::Estimate;
use planner::{Answer, Call, HIGHEST_LIMIT, Planner, Sheet};
use tape::Fault;
use trays::{Kind, Settable, Setup};

// What a load asks for: the limit, and what the machine is set from.
#[derive(Clone, Copy)]
pub(crate) struct Load<S> {
    limit: u8,
    setup: Setup<S>,
}

impl Load<()> {
    // By the operands of a tower's load.
    pub(crate) fn of_tower(operands: &[u8; 34]) -> Load<()>
        ensures limit { result.limit ≡ slice_index operands.now 0 }
        ensures setup { result.setup ≡ record { n = slice_index operands.now 1; span = tt; bytes = drop 2 operands.now } }
    {
        Load {
            limit: operands[0],
            setup: Setup {
                n: operands[1],
                span: (),
                bytes: *operands.last_chunk().unwrap(),
            },
        }
    }
}

impl Load<u8> {
    // By the operands of a ring's load.
    pub(crate) fn of_ring(operands: &[u8; 35]) -> Load<u8>
        ensures limit { result.limit ≡ slice_index operands.now 0 }
        ensures setup { result.setup ≡ record { n = slice_index operands.now 1; span = slice_index operands.now 2; bytes = drop 3 operands.now } }
    {
        Load {
            limit: operands[0],
            setup: Setup {
                n: operands[1],
                span: operands[2],
                bytes: *operands.last_chunk().unwrap(),
            },
        }
    }
}

// Sets a machine and loads it into the planner of its kind, which is then the kind of the latest accepted load; else says why not, and both are as they were. `busy` says whether a task of any kind is at work.
pub(crate) fn load_kind<M: Settable + Drop, E: Estimate<M> + Drop>(
    busy: bool,
    load: &Load<M::Span>,
    kind: Kind,
    latest: &mut Kind,
    planner: &mut Planner<M, E>,
    sheet: &mut Sheet,
) -> Result<Answer, Fault>
    ensures loads { (task : Option (Task M.State)) →
        Holds M.meaning M.state (E.value (estimate_of planner.old)) task planner.old →
        (at_work (doing M.meaning (E.value (estimate_of planner.old)) task) ≡ true → busy ≡ true) →
        (next : Option (Task M.State))
        × Loads M.state M.form M.LEAST M.holding (λ t. Some t) busy load.now.limit (holding_of M.form M.spanning load.now.setup) task result next
        × Holds M.meaning M.state (E.value (estimate_of planner.old)) next planner.new }
    ensures latest { MatchResult result (λ _. latest.new ≡ kind) (λ _. latest.new ≡ latest.old) }
    ensures refused { IfErr result (λ _. planner.new ≡ planner.old) }
{
    let Load { limit, setup } = load;
    let limit = *limit;
    let mut machine = M::new();
    machine.set(setup)?;
    if busy && limit <= HIGHEST_LIMIT {
        return Err(planner::Fault::AtWork.into());
    }
    let answer = planner.answer(Call::Load { machine, limit }, sheet)?;
    *latest = kind;
    Ok(answer)
}
