ghost use Rattle.std.specs.Prelude.{◌≡◌, ℕ, ◌+◌, ◌≤◌, ◌<◌, min, List, length, map, replicate, reverse, take, drop, ⊤, None, Option, IfErr};
ghost use Rattle.planner.specs.Calls.{Task, at_work, doing, on_state};
ghost use Rattle.planner.specs.Promise.{sheet_after};
ghost use Rattle.planner.specs.declared.answer.Answer.TheVariants.{Accepted, Fetched};
ghost use Rattle.planner.specs.declared.call.Call.TheVariants.{Work, Fetch};
ghost use Rattle.planner.specs.declared.phase.Phase.TheVariants.{AtWork, Empty};
ghost use Rattle.planner.specs.declared.planner.TheConstants.{HIGHEST_GRANT, HIGHEST_GRANT_SUM};
ghost use Rattle.search.specs.declared.limit.TheConstants.{HIGHEST_LIMIT};
ghost use Rattle.walk.specs.Sheets.{padded};
ghost use Rattle.walk.specs.Walks.{made};
ghost use Rattle.walk.specs.declared.sheet.TheConstants.{SHEET_PLACES};

use crate::answer::Answer;
use crate::call::Call;
use crate::fault::Fault;
use crate::phase::Phase;
use crate::played::Played;
use crate::progress::Progress;
use crate::seen::Seen;
use estimate::Estimate;
use machine::Machine;
use search::HIGHEST_LIMIT;
use std::alloc::AllocError;
use std::mem;
use walk::Sheet;

/// The most looks of one grant.
pub const HIGHEST_GRANT: u32 = 1_000_000;

/// The most looks of all grants since a load.
pub const HIGHEST_GRANT_SUM: u32 = 2_000_000_000;

/// Searches for the fewest turns that bring a machine home, in doses of looks.
pub struct Planner<M, E> {
    estimate: E,
    progress: Progress<M>,
    phase: Phase,
    // the looks made and those granted since the load
    looks: u32,
    granted: u32,
    ghost spent: { looks ≤ granted },
    ghost few: { granted ≤ HIGHEST_GRANT_SUM },
}

// By hand, since the prover refuses to derive `Clone` for a generic struct with ghost fields (derive-over-ghost-field).
impl<M: Copy, E: Copy> Clone for Planner<M, E> {
    ghost is_clone = { λ p copy. copy ≡ p };

    ghost is_infallible = { λ _. ⊤ };

    fn clone(&self) -> Result<Planner<M, E>, AllocError> {
        Ok(*self)
    }
}

impl<M: Copy, E: Copy> Copy for Planner<M, E> {}

impl<M: Machine + Drop, E: Estimate<M> + Drop> Planner<M, E> {
    ghost use Rattle.planner.specs.Holds.{Holds, HoldsTask, Answers, Plays, Searching, Standing, report as report_of, estimate_of};

    /// A planner with no task. The machine stays in it up to the first load, and changes no answer.
    pub fn new(machine: M, estimate: E) -> Planner<M, E>
        ensures empty { Holds M.meaning M.state (E.value estimate) None result }
        ensures estimate { estimate_of result ≡ estimate }
    {
        Planner {
            estimate,
            progress: Progress::new(machine),
            phase: Phase::Empty,
            looks: 0,
            granted: 0,
        }
    }

    /// Answers a call, or refuses it and changes nothing. Only a fetch writes the sheet.
    pub fn answer(&mut self, call: Call<M>, sheet: &mut Sheet) -> Result<Answer, Fault>
        ensures answers { (task : Option (Task M.State)) →
            Holds M.meaning M.state (E.value (estimate_of self.old)) task self.old →
            Answers M.meaning M.state (E.value (estimate_of self.old)) task (on_state M.state call) sheet.old result sheet.new self.new }
        ensures refused { IfErr result (λ _. (self.new ≡ self.old) × (sheet.new ≡ sheet.old)) }
        ensures estimate { estimate_of self.new ≡ estimate_of self.old }
    {
        match (self.phase, call) {
            (_, Call::Load { limit, .. }) if limit > HIGHEST_LIMIT => Err(Fault::Limit),
            (Phase::AtWork, Call::Load { .. }) => Err(Fault::AtWork),
            (_, Call::Load { machine, limit }) => Ok(self.load(machine, limit)),
            (Phase::AtWork, Call::Work { grant }) if grant == 0 || grant > HIGHEST_GRANT => {
                Err(Fault::Grant)
            }
            (Phase::AtWork, Call::Work { grant }) if self.granted + grant > HIGHEST_GRANT_SUM => {
                Err(Fault::GrantSum)
            }
            (Phase::AtWork, Call::Work { grant }) => Ok(self.work(grant)),
            (_, Call::Work { .. }) => Err(Fault::NoTask),
            (Phase::Found, Call::Fetch) => Ok(self.fetch(sheet)),
            (_, Call::Fetch) => Err(Fault::NotFound),
            (Phase::AtWork, Call::Drop) => Ok(self.drop_task()),
            (_, Call::Drop) => Err(Fault::NothingToDrop),
        }
    }

    /// Whether a task is at work.
    pub fn is_at_work(&self) -> bool
        ensures { (task : Option (Task M.State)) →
            Holds M.meaning M.state (E.value (estimate_of self.now)) task self.now →
            result ≡ at_work (doing M.meaning (E.value (estimate_of self.now)) task) }
    {
        self.phase == Phase::AtWork
    }

    /// Plays the calls one after the other, as many as there is room for replies, and answers how many. A call that is played is taken out, and a fetch stands in its place.
    pub fn play(
        &mut self,
        calls: &mut [Call<M>],
        sheet: &mut Sheet,
        replies: &mut [Played],
    ) -> usize
        ensures count { result ≡ min (length calls.old) (length replies.old) }
        ensures plays { (task : Option (Task M.State)) →
            Holds M.meaning M.state (E.value (estimate_of self.old)) task self.old →
            Plays M.meaning M.state (E.value (estimate_of self.old)) task sheet.old
            (map (on_state M.state) (take result calls.old)) (take result replies.new) self.new }
        ensures sheet { sheet.new ≡ sheet_after sheet.old (take result replies.new) }
        ensures other_replies { drop result replies.new ≡ drop result replies.old }
        ensures taken { take result calls.new ≡ replicate result Fetch }
        ensures other_calls { drop result calls.new ≡ drop result calls.old }
        ensures estimate { estimate_of self.new ≡ estimate_of self.old }
    {
        let count = calls.len().min(replies.len());
        for i in 0..count {
            let call = mem::replace(&mut calls[i], Call::Fetch);
            let reply = self.answer(call, sheet);
            replies[i] = Played {
                reply,
                sheet: *sheet,
            };
        }
        count
    }

    fn load(&mut self, machine: M, limit: u8) -> Answer
        requires { limit ≤ HIGHEST_LIMIT }
        ensures answer { result ≡ Accepted }
        ensures estimate { self.new.estimate ≡ self.old.estimate }
        ensures holds { HoldsTask M.meaning M.state (E.value self.old.estimate) (record { start = M.state machine; limit = limit; granted = 0 }) self.new }
    {
        self.progress.begin(machine, limit);
        self.phase = Phase::AtWork;
        self.looks = 0;
        self.granted = 0;
        Answer::Accepted
    }

    fn work(&mut self, grant: u32) -> Answer
        requires some { 1 ≤ grant }
        requires few { grant ≤ HIGHEST_GRANT }
        requires fits { self.old.granted + grant ≤ HIGHEST_GRANT_SUM }
        ensures answers { (task : Option (Task M.State)) (sheet : List ℕ) →
            self.old.phase ≡ AtWork →
            Holds M.meaning M.state (E.value self.old.estimate) task self.old →
            Answers M.meaning M.state (E.value self.old.estimate) task (Work grant) sheet (Ok result) sheet self.new }
        ensures estimate { self.new.estimate ≡ self.old.estimate }
    {
        self.granted += grant;
        self.spend();
        self.report()
    }

    // Makes the looks that are granted, or fewer where the search ends.
    fn spend(&mut self)
        ensures estimate { self.new.estimate ≡ self.old.estimate }
        ensures holds { (limit : ℕ) (s : M.State) →
            self.old.phase ≡ AtWork →
            Searching M.meaning M.state (E.value self.old.estimate) limit s self.old.looks self.old.progress →
            HoldsTask M.meaning M.state (E.value self.old.estimate) (record { start = s; limit = limit; granted = self.old.granted }) self.new }
    {
        while self.phase == Phase::AtWork && self.looks < self.granted {
            self.look();
        }
    }

    fn look(&mut self)
        requires { self.old.looks < self.old.granted }
        ensures looks { self.new.looks ≡ self.old.looks + 1 }
        ensures granted { self.new.granted ≡ self.old.granted }
        ensures estimate { self.new.estimate ≡ self.old.estimate }
        ensures standing { (limit : ℕ) (s : M.State) →
            self.old.phase ≡ AtWork →
            Searching M.meaning M.state (E.value self.old.estimate) limit s self.old.looks self.old.progress →
            Standing M.meaning M.state (E.value self.old.estimate) limit s self.new.phase self.new.looks self.new.progress }
    {
        self.looks += 1;
        match self.progress.look(&self.estimate) {
            Seen::GoesOn => {}
            Seen::Home => self.phase = Phase::Found,
            Seen::Ended => self.phase = Phase::NoPlan,
        }
    }

    // What a grant is told.
    fn report(&self) -> Answer
        ensures { result ≡ report_of self.now.phase (length (made self.now.progress.walk)) self.now.looks }
    {
        let looks = self.looks;
        let length = self.progress.walk.depth();
        match self.phase {
            Phase::Empty | Phase::AtWork => Answer::Working { looks },
            Phase::Found => Answer::Found { length, looks },
            Phase::NoPlan => Answer::NoPlan { looks },
        }
    }

    fn fetch(&self, sheet: &mut Sheet) -> Answer
        ensures answer { result ≡ Fetched (length (made self.now.progress.walk)) }
        ensures sheet { sheet.new ≡ padded (take SHEET_PLACES (reverse (made self.now.progress.walk))) }
    {
        self.progress.walk.write(sheet);
        Answer::Fetched {
            length: self.progress.walk.depth(),
        }
    }

    fn drop_task(&mut self) -> Answer
        ensures answer { result ≡ Accepted }
        ensures estimate { self.new.estimate ≡ self.old.estimate }
        ensures empty { self.new.phase ≡ Empty }
    {
        self.phase = Phase::Empty;
        Answer::Accepted
    }
}
