ghost use Rattle.std.specs.Prelude.{◌≡◌, ℕ, ◌≤◌, List, length};
ghost use Rattle.machine.specs.Meaning.{Brings};
ghost use Rattle.estimate.specs.Meaning.{IsEstimate};
ghost use Rattle.estimate.specs.declared.estimate.TheConstants.{HIGHEST_ESTIMATE};

use machine::Machine;

/// The highest number that an estimate may have.
pub const HIGHEST_ESTIMATE: u8 = 250;

/// An estimate of the turns that a machine still needs. `value` says which number each state has.
pub trait Estimate<M: Machine> {
    ghost value: { Self → M.State → ℕ };

    /// The number of the machine's state. The last two clauses are `sound` at that state.
    fn ask(&self, machine: &M) -> u8
        ensures value { result ≡ value self.now (M.state machine.now) }
        ensures most { result ≤ HIGHEST_ESTIMATE }
        ensures admissible { (ks : List ℕ) → Brings M.meaning ks (M.state machine.now) → result ≤ length ks };

    ghost sound: { (e : Self) → IsEstimate M.meaning (value e) };
}
