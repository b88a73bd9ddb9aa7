ghost use Rattle.estimate.specs.Layers.{dual_lookup};
ghost use Rattle.estimate.specs.Laws.{dual_lookup_sound};

use crate::estimate::Estimate;
use crate::successor_estimate::SuccessorEstimate;
use machine::Dual;

/// The greater of the estimate below on the machine and on its dual.
#[derive(Clone, Copy)]
pub struct DualLookup<E> {
    /// The estimate below.
    pub below: E,
}

impl<M: Dual + Drop, E: Estimate<M>> Estimate<M> for DualLookup<E> {
    ghost value = { λ layer. dual_lookup M.mirror (E.value layer.below) };

    ghost sound = { λ layer. dual_lookup_sound M.meaning M.mirror M.duals (E.value layer.below) (E.sound layer.below) };

    fn ask(&self, machine: &M) -> u8 {
        let here = self.below.ask(machine);
        here.max(self.below.ask(&machine.dual()))
    }
}

impl<M: Dual + Copy, E: Estimate<M>> SuccessorEstimate<M> for DualLookup<E> {}
