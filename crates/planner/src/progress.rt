ghost use Rattle.std.specs.Prelude.{◌≡◌, ℕ, ◌+◌, ◌≤◌, ⊤, List, length, Some, None};
ghost use Rattle.planner.specs.ToCome.{to_come, with_cut};
ghost use Rattle.search.specs.Search.{Look, all_looks};
ghost use Rattle.search.specs.declared.limit.TheConstants.{HIGHEST_LIMIT};
ghost use Rattle.walk.specs.Walks.{made, machine as machine_of, Went, Over};

use crate::seen::Seen;
use estimate::Estimate;
use machine::Machine;
use search::first_threshold;
use std::alloc::AllocError;
use walk::{Step, Walk};

// A search between two looks.
pub(crate) struct Progress<M> {
    pub(crate) walk: Walk<M>,
    pub(crate) limit: u8,
    // none before the first look
    pub(crate) threshold: Option<u8>,
    // the least total that was cut in this round
    pub(crate) least: Option<u16>,
    ghost low_limit: { limit ≤ HIGHEST_LIMIT },
}

// By hand, since the prover refuses to derive `Clone` for a generic struct with ghost fields (derive-over-ghost-field).
impl<M: Copy> Clone for Progress<M> {
    ghost is_clone = { λ p copy. copy ≡ p };

    ghost is_infallible = { λ _. ⊤ };

    fn clone(&self) -> Result<Progress<M>, AllocError> {
        Ok(*self)
    }
}

impl<M: Copy> Copy for Progress<M> {}

impl<M: Machine + Drop> Progress<M> {
    ghost use Rattle.planner.specs.UnderWay.{UnderWay, Looked, GoneOn};

    // No search: the machine is held until the first one begins.
    pub(crate) fn new(machine: M) -> Progress<M> {
        Progress {
            walk: Walk::new(machine),
            limit: 0,
            threshold: None,
            least: None,
        }
    }

    // A search from this machine, with no look made.
    pub(crate) fn begin(&mut self, machine: M, limit: u8)
        requires { limit ≤ HIGHEST_LIMIT }
        ensures { (e : M.State → ℕ) →
            UnderWay M.meaning M.state e limit (M.state machine) self.new (all_looks M.meaning e limit (M.state machine)) }
    {
        self.walk.begin(machine);
        self.limit = limit;
        self.threshold = None;
        self.least = None;
    }

    // One look, with the going back and the change of rounds that belong to it.
    pub(crate) fn look<E: Estimate<M>>(&mut self, estimate: &E) -> Seen
        ensures { (limit : ℕ) (s : M.State) (xs : List Look) →
            UnderWay M.meaning M.state (E.value estimate.now) limit s self.old xs →
            Looked M.meaning M.state (E.value estimate.now) limit s result self.new xs }
    {
        match self.threshold {
            None => self.first_look(estimate),
            Some(threshold) => self.later_look(estimate, threshold),
        }
    }

    // Sets the threshold of the first round. No total is above it yet.
    fn first_look<E: Estimate<M>>(&mut self, estimate: &E) -> Seen
        requires { self.old.threshold ≡ None }
        ensures { (limit : ℕ) (s : M.State) (xs : List Look) →
            UnderWay M.meaning M.state (E.value estimate.now) limit s self.old xs →
            Looked M.meaning M.state (E.value estimate.now) limit s result self.new xs }
    {
        self.threshold = first_threshold(self.walk.here(), estimate, self.limit);
        match self.threshold {
            None => Seen::Ended,
            Some(_) => self.look_not_cut(),
        }
    }

    fn later_look<E: Estimate<M>>(&mut self, estimate: &E, threshold: u8) -> Seen
        requires { self.old.threshold ≡ Some threshold }
        ensures { (limit : ℕ) (s : M.State) (xs : List Look) →
            UnderWay M.meaning M.state (E.value estimate.now) limit s self.old xs →
            Looked M.meaning M.state (E.value estimate.now) limit s result self.new xs }
    {
        let total = u16::from(self.walk.depth()) + u16::from(estimate.ask(self.walk.here()));
        if total <= u16::from(threshold) {
            return self.look_not_cut();
        }
        self.least = Some(lesser(self.least, total));
        let step = self.walk.leave();
        self.settle(step)
    }

    // The state is not cut: it is home, or it is continued.
    fn look_not_cut(&mut self) -> Seen
        ensures { (e : M.State → ℕ) (limit : ℕ) (s : M.State) (threshold : ℕ) (xs : List Look) →
            self.old.threshold ≡ Some threshold →
            length (made self.old.walk) + e (M.state (machine_of self.old.walk)) ≤ threshold →
            UnderWay M.meaning M.state e limit s self.old xs →
            Looked M.meaning M.state e limit s result self.new xs }
    {
        if self.walk.here().is_home() {
            return Seen::Home;
        }
        let step = self.walk.advance();
        self.settle(step)
    }

    // Where the walk has not gone on, the round is over.
    fn settle(&mut self, step: Step) -> Seen
        ensures { (e : M.State → ℕ) (limit : ℕ) (s : M.State) (threshold : ℕ) (left : List Look) →
            self.old.limit ≡ limit →
            self.old.threshold ≡ Some threshold →
            threshold ≤ limit →
            Went M.meaning M.state e threshold s left step self.old.walk →
            GoneOn M.meaning M.state e limit s result self.new (to_come M.meaning e limit s self.old.least left) }
    {
        match step {
            Step::Reached => Seen::GoesOn,
            Step::RoundOver => self.next_round(),
        }
    }

    // The least total cut is the next threshold, if it is not above the limit.
    fn next_round(&mut self) -> Seen
        ensures { (e : M.State → ℕ) (limit : ℕ) (s : M.State) (left : List Look) →
            self.old.limit ≡ limit →
            Over M.meaning M.state s left self.old.walk →
            GoneOn M.meaning M.state e limit s result self.new (to_come M.meaning e limit s self.old.least left) }
    {
        match self.least.take() {
            Some(least) if least <= u16::from(self.limit) => {
                self.threshold = Some(least as u8);
                Seen::GoesOn
            }
            _ => Seen::Ended,
        }
    }
}

// The least total cut so far, with this one.
fn lesser(least: Option<u16>, total: u16) -> u16
    ensures { Some result ≡ with_cut least total }
{
    least.map_or(total, |least| least.min(total))
}
