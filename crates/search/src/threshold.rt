ghost use Rattle.std.specs.Prelude.{◌≡◌, ℕ};
ghost use Rattle.search.specs.Search.{allowed};
ghost use Rattle.search.specs.Shortest.{FindsShortest, Unbounded};

use estimate::Estimate;
use machine::Machine;

/// The threshold of the first round of a search: the estimate of the machine. Where that is above the limit there is none, and the search ends without a plan. `shortest` and `unbounded` are of every search by this estimate, within any limit and from any state.
#[tactic(auto, using(crate::proofs::Bounds::unbounded))]
pub fn first_threshold<M: Machine, E: Estimate<M>>(
    machine: &M,
    estimate: &E,
    limit: u8,
) -> Option<u8>
    ensures shortest { (l : ℕ) (s : M.State) → FindsShortest M.meaning (E.value estimate.now) l s }
    ensures unbounded { Unbounded M.meaning (E.value estimate.now) }
    ensures threshold { result ≡ allowed limit (E.value estimate.now (M.state machine.now)) }
{
    let threshold = estimate.ask(machine);
    (threshold <= limit).then_some(threshold)
}
