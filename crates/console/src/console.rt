ghost use Rattle.std.specs.Prelude.{◌≡◌, ◌+◌, ◌*◌, ◌<◌, ◌≤◌, ◌++◌, ℕ, List, length, drop, replicate, slice_index, IfErr, MatchResult, None, Option, Result};
ghost use Rattle.planner.specs.Calls.{Task, after};
ghost use Rattle.planner.specs.Holds.{Holds, estimate_of};
ghost use Rattle.planner.specs.Promise.{Kept};
ghost use Rattle.planner.specs.declared.answer.Answer.{Answer};
ghost use Rattle.planner.specs.declared.fault.Fault as faults;
ghost use Rattle.tape.specs.Commands.{width};
ghost use Rattle.console.specs.Calls.{Asks, call_of};
ghost use Rattle.console.specs.Commanded.{Answered, carried};
ghost use Rattle.console.specs.Histories.{History, busy, none};
ghost use Rattle.console.specs.Tapes.{AllReplies, OneStep, Replied, Runs, Whole, call_fault, placed_reply, written};

use crate::load::{Load, load_kind};
use crate::ran::Ran;
use crate::replies::put;
use estimate::{DualLookup, Estimate, LookAhead, SuccessorEstimate};
use gaps::{Breakpoints, Gaps, HalfGaps};
use machine::{Dual, Machine};
use planner::{Answer, Call, Planner, SHEET_PLACES, Sheet};
use ring::TrayRing;
use tape::{Command, Fault, LONGEST_REPLY, Placed, Refusal, write_reply};
use towers::{PlainTower, SidedTower};
use trays::{Kind, Settable};

/// A tape has at most these bytes.
pub const LONGEST_TAPE: usize = 4096;

/// The grant of the command G.
pub const GO_GRANT: u32 = 10_000;

/// A planner of each kind, and the kind of the last load that was accepted. Before the first load every planner is empty, so any kind would do.
#[derive(Clone, Copy)]
pub struct Console {
    plain: Planner<PlainTower, DualLookup<LookAhead<Gaps>>>,
    sided: Planner<SidedTower, DualLookup<LookAhead<Breakpoints>>>,
    ring: Planner<TrayRing, DualLookup<LookAhead<HalfGaps>>>,
    latest: Kind,
}

impl Console {
    ghost use Rattle.console.specs.Called.{Called};
    ghost use Rattle.console.specs.Holds.{Stands};

    /// A console before its first command.
    pub fn new() -> Console
        ensures { Stands none result }
    {
        Console {
            plain: empty_planner(Gaps),
            sided: empty_planner(Breakpoints),
            ring: empty_planner(HalfGaps),
            latest: Kind::Plain,
        }
    }

    /// Runs the command at this place of the tape and writes its reply; the bytes past it stay. At the tape's end nothing is run. What is refused as a whole changes nothing.
    pub fn run(&mut self, tape: &[u8], place: usize, reply: &mut [u8]) -> Result<Ran, Refusal>
        ensures one { OneStep }
        ensures called { Called tape.now place self.old reply.old result self.new reply.new }
    {
        check_place(tape, place)?;
        match reply.first_chunk_mut() {
            None => Err(whole(Fault::ReplyRoom)),
            Some(bytes) => Ok(self.run_at(tape, place, bytes)),
        }
    }

    // Runs a tape from its beginning, writes all replies as far as there is room, and gives how many bytes they are.
    pub(crate) fn run_tape(mut self, tape: &[u8], room: &mut [u8]) -> usize
        ensures replies { Stands none self → (bytes : List ℕ) × AllReplies tape.now bytes × (result ≡ length bytes) × (room.new ≡ written room.old bytes) }
        ensures few { result ≤ LONGEST_TAPE * LONGEST_REPLY }
    {
        let mut count = 0;
        let mut place = 0;
        while place < tape.len() {
            let mut reply = [0; LONGEST_REPLY];
            match self.run(tape, place, &mut reply) {
                Ok(ran) => {
                    put(room, count, &reply[..ran.count]);
                    count += ran.count;
                    place = ran.next;
                }
                Err(refusal) => {
                    let bytes = refusal.bytes();
                    put(room, count, &bytes);
                    return count + bytes.len();
                }
            }
        }
        count
    }

    // Runs the command at this place, which is on the tape or at its end.
    fn run_at(&mut self, tape: &[u8], place: usize, bytes: &mut [u8; LONGEST_REPLY]) -> Ran
        requires fits { length tape.now ≤ LONGEST_TAPE }
        requires on_tape { place ≤ length tape.now }
        ensures runs { (h : History) → Stands h self.old →
            (after : History) × Runs tape.now place h bytes.old result bytes.new after × Stands after self.new }
        ensures refused { slice_index bytes.new 0 ≡ 0x45 → self.new ≡ self.old }
        ensures idle { result.count ≡ 0 → self.new ≡ self.old }
        ensures long { length bytes.new ≡ LONGEST_REPLY }
        ensures forward { (place < length tape.now → place < result.next) × (result.next ≤ length tape.now) × (result.count ≤ LONGEST_REPLY) }
    {
        let here = place as u16;
        match Command::read(&tape[place..]) {
            Ok(None) => Ran {
                next: place,
                count: 0,
            },
            Ok(Some(command)) => self.run_command(
                &Placed {
                    command,
                    place: here,
                },
                bytes,
            ),
            Err(fault) => {
                let refusal = Refusal { fault, place: here };
                Ran {
                    next: tape.len(),
                    count: write_reply(Err(refusal), &[0; SHEET_PLACES], bytes),
                }
            }
        }
    }

    // Runs this command and writes its reply.
    fn run_command(&mut self, placed: &Placed, bytes: &mut [u8; LONGEST_REPLY]) -> Ran
        ensures runs { (h : History) → Stands h self.old →
            (after : History) × (reply : List ℕ) × Replied placed.now.place h placed.now.command reply result.next after
            × (result.count ≡ length reply) × (bytes.new ≡ reply ++ drop (length reply) bytes.old) × Stands after self.new }
        ensures refused { slice_index bytes.new 0 ≡ 0x45 → self.new ≡ self.old }
        ensures next { result.next ≡ placed.now.place + 1 + width placed.now.command }
        ensures some { 1 ≤ result.count }
        ensures few { result.count ≤ LONGEST_REPLY }
    {
        let mut sheet = [0; SHEET_PLACES];
        let reply = self.answer(&placed.command, &mut sheet);
        let count = write_reply(placed_reply(placed, reply), &sheet, bytes);
        Ran {
            next: placed.next(),
            count,
        }
    }

    // Answers a command, or refuses it and changes nothing.
    fn answer(&mut self, command: &Command, sheet: &mut Sheet) -> Result<Answer, Fault>
        requires { sheet.old ≡ replicate SHEET_PLACES 0 }
        ensures answered { (h : History) → Stands h self.old →
            (after : History) × Answered h command.now result sheet.new after × Stands after self.new }
        ensures refused { IfErr result (λ _. self.new ≡ self.old) }
    {
        let busy = self.is_busy();
        match command {
            Command::Plain(operands) => load_kind(
                busy,
                &Load::of_tower(operands),
                Kind::Plain,
                &mut self.latest,
                &mut self.plain,
                sheet,
            ),
            Command::Sided(operands) => load_kind(
                busy,
                &Load::of_tower(operands),
                Kind::Sided,
                &mut self.latest,
                &mut self.sided,
                sheet,
            ),
            Command::Ring(operands) => load_kind(
                busy,
                &Load::of_ring(operands),
                Kind::Ring,
                &mut self.latest,
                &mut self.ring,
                sheet,
            ),
            Command::Work(_) | Command::Go | Command::Fetch | Command::Drop => {
                self.ask_latest(command, sheet)
            }
        }
    }

    // Asks the planner of the latest accepted load what a command asks that loads nothing.
    fn ask_latest(&mut self, command: &Command, sheet: &mut Sheet) -> Result<Answer, Fault>
        requires asks { Asks command.now }
        requires sheet { sheet.old ≡ replicate SHEET_PLACES 0 }
        ensures answered { (h : History) → Stands h self.old →
            (after : History) × Answered h command.now result sheet.new after × Stands after self.new }
        ensures refused { IfErr result (λ _. self.new ≡ self.old) }
    {
        match self.latest {
            Kind::Plain => ask(&mut self.plain, command, sheet),
            Kind::Sided => ask(&mut self.sided, command, sheet),
            Kind::Ring => ask(&mut self.ring, command, sheet),
        }
    }

    // Whether a task of any kind is at work.
    fn is_busy(&self) -> bool
        ensures { (h : History) → Stands h self.now → result ≡ busy h }
    {
        self.plain.is_at_work() || (self.sided.is_at_work() || self.ring.is_at_work())
    }
}

// A planner of this kind with no task, over dual lookup over look-ahead over this estimate.
fn empty_planner<M: Settable + Dual + Copy, E: SuccessorEstimate<M> + Drop>(
    estimate: E,
) -> Planner<M, DualLookup<LookAhead<E>>>
    ensures { (value : M.State → ℕ) → Holds M.meaning M.state value None result }
{
    let look_ahead = LookAhead { below: estimate };
    let dual_lookup = DualLookup { below: look_ahead };
    Planner::new(M::new(), dual_lookup)
}

// Asks a planner what a command asks that loads nothing, with the planner's fault in the console's.
fn ask<M: Machine + Drop, E: Estimate<M> + Drop>(
    planner: &mut Planner<M, E>,
    command: &Command,
    sheet: &mut Sheet,
) -> Result<Answer, Fault>
    requires asks { Asks command.now }
    requires sheet { sheet.old ≡ replicate SHEET_PLACES 0 }
    ensures asked { (task : Option (Task M.State)) →
        Holds M.meaning M.state (E.value (estimate_of planner.old)) task planner.old →
        (reply : Result Answer faults.Fault) × (result ≡ carried reply)
        × Kept M.meaning (E.value (estimate_of planner.old)) task (call_of command.now) (replicate SHEET_PLACES 0) reply sheet.new
        × Holds M.meaning M.state (E.value (estimate_of planner.old)) (after M.meaning (E.value (estimate_of planner.old)) task (call_of command.now)) planner.new }
    ensures refused { IfErr result (λ _. planner.new ≡ planner.old) }
{
    Ok(planner.answer(call_of(command), sheet)?)
}

// The call of a command that loads nothing.
fn call_of<M>(command: &Command) -> Call<M>
    requires { Asks command.now }
    ensures { result ≡ call_of command.now }
{
    match command {
        Command::Work(grant) => Call::Work {
            grant: u32::from_be_bytes(**grant),
        },
        Command::Go => Call::Work { grant: GO_GRANT },
        Command::Fetch => Call::Fetch,
        Command::Drop => Call::Drop,
        Command::Plain(_) | Command::Sided(_) | Command::Ring(_) => unreachable!(),
    }
}

// The reply to a command, with the place of the byte at fault.
fn placed_reply(placed: &Placed, reply: Result<Answer, Fault>) -> Result<Answer, Refusal>
    ensures { result ≡ placed_reply placed.now reply }
{
    match reply {
        Ok(answer) => Ok(answer),
        Err(fault) => Err(placed.refused(fault)),
    }
}

// Refuses a tape that is too long, and then a place beyond its end.
fn check_place(tape: &[u8], place: usize) -> Result<(), Refusal>
    ensures { MatchResult result
        (λ _. (length tape.now ≤ LONGEST_TAPE) × (place ≤ length tape.now) × ((room : ℕ) → LONGEST_REPLY ≤ room → call_fault tape.now place room ≡ None))
        (λ r. (room : ℕ) → Whole tape.now place room r) }
{
    if tape.len() > LONGEST_TAPE {
        return Err(whole(Fault::TapeLength));
    }
    if place > tape.len() {
        return Err(whole(Fault::Place));
    }
    Ok(())
}

// The refusal of a call as a whole.
fn whole(fault: Fault) -> Refusal
    ensures { result ≡ record { fault = fault; place = 0 } }
{
    Refusal { fault, place: 0 }
}
