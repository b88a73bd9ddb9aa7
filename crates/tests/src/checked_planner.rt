ghost use Rattle.std.specs.Prelude.{◌<◌};

use estimate::Estimate;
use machine::Machine;
use planner::{Answer, Call, Fault, Planner, SHEET_PLACES, Sheet};
use std::process::Abort;
use std::test::*;

// A sheet in which nothing was written.
pub(crate) const UNTOUCHED: Sheet = [7; SHEET_PLACES];

// These turns, and 0 after the last.
pub(crate) fn sheet_of(turns: &[u8]) -> Sheet {
    let mut sheet = [0; SHEET_PLACES];
    for (place, turn) in sheet.iter_mut().zip(turns) {
        *place = *turn;
    }
    sheet
}

// What is answered after so many looks are granted of a search that makes `looks` and gives this plan or none.
fn answer_after(granted: u32, looks: u32, plan: Option<&[u8]>) -> Answer {
    match plan {
        _ if granted < looks => Answer::Working { looks: granted },
        Some(turns) => Answer::Found {
            length: turns.len().min(SHEET_PLACES) as u8,
            looks,
        },
        None => Answer::NoPlan { looks },
    }
}

// A planner that is asked, the sheet that it is handed, and how often it was asked.
#[derive(Drop)]
pub(crate) struct CheckedPlanner<M, E> {
    planner: Planner<M, E>,
    sheet: Sheet,
    asked: u32,
}

impl<M: Machine + Copy + Drop, E: Estimate<M> + Drop> CheckedPlanner<M, E> {
    pub(crate) fn new(machine: M, estimate: E) -> CheckedPlanner<M, E> {
        CheckedPlanner {
            planner: Planner::new(machine, estimate),
            sheet: UNTOUCHED,
            asked: 0,
        }
    }

    // The call is replied so, and the sheet is then this one.
    fn check(
        &mut self,
        rt: &impl Abort,
        call: Call<M>,
        reply: Result<Answer, Fault>,
        sheet: Sheet,
    ) {
        self.asked = self.asked.saturating_add(1);
        let asked = self.asked;
        assert_eq!(rt;
            self.planner.answer(call, &mut self.sheet),
            reply,
            "at call {asked}"
        );
        assert_eq!(rt; self.sheet, sheet, "after call {asked}");
    }

    // The call is accepted with this answer, and the sheet stays.
    pub(crate) fn ask(&mut self, rt: &impl Abort, call: Call<M>, answer: Answer) {
        self.check(rt, call, Ok(answer), self.sheet);
    }

    // The call is refused, and the sheet stays.
    pub(crate) fn refuse(&mut self, rt: &impl Abort, call: Call<M>, fault: Fault) {
        self.check(rt, call, Err(fault), self.sheet);
    }

    // The machine is loaded, to be brought home within the limit.
    pub(crate) fn load(&mut self, rt: &impl Abort, machine: M, limit: u8) {
        self.ask(rt, Call::Load { machine, limit }, Answer::Accepted);
    }

    // A fetch writes these turns into a sheet in which nothing was written.
    pub(crate) fn fetch(&mut self, rt: &impl Abort, turns: &[u8]) {
        self.sheet = UNTOUCHED;
        let length = turns.len().min(SHEET_PLACES) as u8;
        self.check(
            rt,
            Call::Fetch,
            Ok(Answer::Fetched { length }),
            sheet_of(turns),
        );
    }

    // There is no plan to be fetched.
    pub(crate) fn fetch_nothing(&mut self, rt: &impl Abort) {
        self.sheet = UNTOUCHED;
        self.refuse(rt, Call::Fetch, Fault::NotFound);
    }

    // Grants so many looks at a time until all looks are made.
    pub(crate) fn work(&mut self, rt: &impl Abort, grant: u32, looks: u32, plan: Option<&[u8]>)
        requires { 0 < grant }
    {
        for grants in 1..=looks.div_ceil(grant) {
            let answer = answer_after(grants.saturating_mul(grant), looks, plan);
            self.ask(rt, Call::Work { grant }, answer);
        }
    }

    // The search from this machine makes so many looks and gives this plan.
    pub(crate) fn find(&mut self, rt: &impl Abort, machine: M, limit: u8, looks: u32, plan: &[u8]) {
        self.load(rt, machine, limit);
        self.work(rt, 1000, looks, Some(plan));
        self.fetch(rt, plan);
    }

    // The search from this machine makes so many looks, and there is no plan within the limit.
    pub(crate) fn find_none(&mut self, rt: &impl Abort, machine: M, limit: u8, looks: u32) {
        self.load(rt, machine, limit);
        self.work(rt, 1000, looks, None);
        self.fetch_nothing(rt);
    }
}
