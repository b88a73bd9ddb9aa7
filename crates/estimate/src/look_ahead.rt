ghost use Rattle.estimate.specs.Layers.{look_ahead};
ghost use Rattle.estimate.specs.Laws.{look_ahead_sound};

use crate::estimate::{Estimate, HIGHEST_ESTIMATE};
use crate::successor_estimate::SuccessorEstimate;
use machine::Machine;

/// Looks one turn ahead of the estimate below. 0 at home; elsewhere the greater of the estimate here and 1 plus the least after one turn, but at most `HIGHEST_ESTIMATE`; where there are no turns, the estimate here.
#[derive(Clone, Copy)]
pub struct LookAhead<E> {
    /// The estimate below.
    pub below: E,
}

impl<M: Machine + Copy, E: SuccessorEstimate<M>> Estimate<M> for LookAhead<E> {
    ghost value = { λ layer. look_ahead M.meaning (E.value layer.below) };

    ghost sound = { λ layer. look_ahead_sound M.meaning (E.value layer.below) (E.sound layer.below) };

    fn ask(&self, machine: &M) -> u8 {
        if machine.is_home() {
            return 0;
        }
        let here = self.below.ask(machine);
        match self.below.least_after(machine) {
            Some(least) => here.max(least.saturating_add(1)).min(HIGHEST_ESTIMATE),
            None => here,
        }
    }
}

impl<M: Machine + Copy, E: SuccessorEstimate<M>> SuccessorEstimate<M> for LookAhead<E> {}
