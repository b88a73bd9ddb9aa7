use crate::block::Block;
use crate::counted::Counted;
use crate::line::Line;
use crate::listed::Listed;
use crate::other_turns::OtherTurns;
use crate::reason::Reason;
use crate::row::Row;
use machine::{Ending, Fault, Trace};
use outcome::{Completed, Done, Estimates, Outcome, Planned};
use std::fmt::Display;
use std::{io, iter};
use trays::{Kind, Settable, Tray};

// Prints what came of a line, by the kind of its machine. Each line that is written is one `println`, and so one write where it is short: what others write to the same file does not stand in it.
pub(crate) fn show(rt: &HostRuntime, line: Line<'_>, outcome: &Outcome) -> io::Result<()> {
    match outcome {
        Outcome::Plain(completed) => show_completed(rt, line, Kind::Plain, None, completed),
        Outcome::Sided(completed) => show_completed(rt, line, Kind::Sided, None, completed),
        Outcome::Ring(completed) => {
            let span = completed.start.span();
            show_completed(rt, line, Kind::Ring, Some(span), completed)
        }
    }
}

fn show_completed<M: Settable>(
    rt: &HostRuntime,
    line: Line<'_>,
    kind: Kind,
    span: Option<u8>,
    completed: &Completed<M>,
) -> io::Result<()>
where
    M::Tray: Tray + Display,
{
    let Completed { start, done } = completed;
    let shown = Shown {
        line,
        kind,
        span,
        start,
    };
    shown.all(rt, done)
}

// A machine as it was set for a line, and its span, if it is a ring.
#[derive(Clone, Copy)]
struct Shown<'a, M> {
    line: Line<'a>,
    kind: Kind,
    span: Option<u8>,
    start: &'a M,
}

impl<'a, M: Settable> Shown<'a, M>
where
    M::Tray: Tray + Display,
{
    // Prints the machine, and what was done with it.
    fn all(&self, rt: &HostRuntime, done: &Done<M>) -> io::Result<()> {
        let kind = self.kind;
        let trays = Listed(self.start.trays());
        match self.span {
            Some(k) => println!(rt; "{kind}{trays} span {k}")?,
            None => println!(rt; "{kind}{trays}")?,
        }
        match done {
            Done::Followed { turns, trace } => self.followed(rt, turns, trace),
            Done::Mirrored(dual) => println!(rt; "dual:{}", Listed(dual.trays())),
            Done::Estimated(estimates) => self.estimated(rt, estimates),
            Done::Planned { limit, planned } => self.planned(rt, *limit, planned),
        }
    }

    // Prints the estimates of the turns that the machine still needs.
    fn estimated(&self, rt: &HostRuntime, estimates: &Estimates) -> io::Result<()> {
        let Estimates {
            count,
            look_ahead,
            dual_lookup,
        } = estimates;
        println!(rt; "{}: {count}", count_name(self.kind))?;
        println!(rt; "look-ahead: {look_ahead}")?;
        println!(rt; "dual over look-ahead: {dual_lookup}")
    }

    // Prints the turns that were made, and how they ended.
    fn followed(&self, rt: &HostRuntime, turns: &[u8], trace: &Trace<M>) -> io::Result<()> {
        self.draw(rt, turns, &trace.states)?;
        let made = trace.states.len();
        match trace.ending {
            Ending::Home => println!(rt; "home after {}", Counted(made, "turn")),
            Ending::NotHome => println!(rt; "not home after {}", Counted(made, "turn")),
            Ending::Refused(fault) => self.refused(rt, turns.get(made).copied(), fault),
        }
    }

    // Says that a turn was refused, and which turns there are.
    fn refused(&self, rt: &HostRuntime, turn: Option<u8>, fault: Fault) -> io::Result<()> {
        let line = self.line;
        let kind = self.kind;
        let number = fault.number();
        let reason = Reason { kind, fault };
        let others = OtherTurns(self.start.range());
        match turn {
            Some(k) => println!(rt; "{line}refused {number} at turn {k}: {reason}{others}"),
            None => println!(rt; "{line}refused {number}: {reason}{others}"),
        }
    }

    // Prints the plan, or why there is none.
    fn planned(&self, rt: &HostRuntime, limit: u8, planned: &Planned<M>) -> io::Result<()> {
        let line = self.line;
        let within = Counted(limit, "turn");
        match planned {
            Planned::Refused(fault) => {
                let number = fault.number();
                println!(rt; "{line}refused {number}: {fault}")
            }
            Planned::Found {
                turns,
                trace,
                looks,
            } => {
                let length = Counted(turns.len(), "turn");
                let looks = Counted(*looks, "look");
                println!(rt; "plan of {length}, the fewest, after {looks}")?;
                self.draw(rt, turns, &trace.states)
            }
            Planned::NoPlan { looks } => {
                let looks = Counted(*looks, "look");
                println!(rt; "no plan within the limit of {within}, after {looks}")
            }
            Planned::Unfinished { looks } => {
                let looks = Counted(*looks, "look");
                println!(rt; "no answer within {looks}: there may be a plan within {within}")
            }
        }
    }

    // Draws the trays before each turn that was made, with the block that it turns over, and after the last.
    fn draw(&self, rt: &HostRuntime, turns: &[u8], after: &[M]) -> io::Result<()> {
        let Some(last) = after.last() else {
            return Ok(());
        };
        let n = self.start.trays().len();
        let digits = if n > 9 { 2 } else { 1 };
        let width = digits + usize::from(self.kind == Kind::Sided);
        let before = iter::once(self.start).chain(after).take(after.len());
        for (k, state) in turns.iter().zip(before) {
            let row = Row {
                trays: state.trays(),
                width,
                block: Some(Block::of(*k, self.span, n)),
            };
            println!(rt; "turn {k:>digits$}: {row}")?;
        }
        let label = if last.is_home() { "home:" } else { "then:" };
        let indent = digits + 6;
        let row = Row {
            trays: last.trays(),
            width,
            block: None,
        };
        println!(rt; "{label:<indent$} {row}")
    }
}

// What is counted in a machine of this kind, as an estimate of the turns that it needs.
fn count_name(kind: Kind) -> &'static str {
    match kind {
        Kind::Plain => "gaps",
        Kind::Sided => "breakpoints",
        Kind::Ring => "half gaps",
    }
}
