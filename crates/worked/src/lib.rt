//! Worked examples, as statements about the definitions that the contracts use: what a turn of each kind does, and what the counts, the duals and the searches give at small machines.

#![tactic(auto)]

ghost use Rattle.std.specs.Prelude.{◌≡◌, map};
ghost use Rattle.gaps.specs.Kinds.{plain_estimate};
ghost use Rattle.ring.specs.Ring.{ring};
ghost use Rattle.towers.specs.Kinds.{plain, sided};
ghost use Rattle.worked.specs.Worked.{WorkedExamples, worked_searches};

use estimate::{DualLookup, LookAhead};
use gaps::Gaps;
use ring::TrayRing;
use towers::{PlainTower, SidedTower};

/// How many looks each of the worked searches makes. The last clauses say that `plain`, `sided`, `ring` and `plain_estimate` are what the machines and the estimate of these types mean.
#[tactic(auto, using(crate::proofs::Worked::worked_examples, crate::proofs::Worked::looks_counted))]
pub fn worked_looks() -> [u8; 14]
    ensures examples { WorkedExamples }
    ensures looks { result ≡ map (λ w. w.0.looks) worked_searches }
    ensures plain { ⟦<PlainTower as machine::Machine>⟧.meaning ≡ plain }
    ensures sided { ⟦<SidedTower as machine::Machine>⟧.meaning ≡ sided }
    ensures ring { ⟦<TrayRing as machine::Machine>⟧.meaning ≡ ring }
    ensures plain_estimate { ⟦<DualLookup<LookAhead<Gaps>> as estimate::Estimate<PlainTower>>⟧.value
        ≡ (λ _. plain_estimate) }
{
    [1, 2, 1, 7, 4, 3, 1, 13, 2, 13, 10, 11, 2, 9]
}
