ghost use Rattle.std.specs.Prelude.{List};
ghost use Rattle.text.specs.Readers.{Asks};
ghost use Rattle.outcome.specs.Outcomes.{Answers, Replies, Requested};

use crate::completed::{Completed, attempt};
use crate::failure::Failure;
use gaps::{Breakpoints, Gaps, HalfGaps};
use ring::TrayRing;
use std::alloc::Global;
use text::{Request, Word, read_words};
use towers::{PlainTower, SidedTower};
use trays::{Kind, Setup};

/// What was done for a line, by the kind of machine.
#[derive(Drop)]
pub enum Outcome {
    Plain(Completed<PlainTower>),
    Sided(Completed<SidedTower>),
    Ring(Completed<TrayRing>),
}

/// Does what a line asks for; a line without words asks for nothing.
pub fn perform(heap: Global, line: &str) -> Result<Option<Outcome>, Failure>
    ensures { Answers line.now result }
{
    let words = read_words(heap, line)?;
    reply(heap, &words)
}

// Does what the words of a line ask for.
fn reply(heap: Global, words: &[Word]) -> Result<Option<Outcome>, Failure>
    ensures { Replies words.now result }
{
    if words.is_empty() {
        return Ok(None);
    }
    let request = Request::parse(heap, words)?;
    Ok(Some(carry_out(heap, request)?))
}

// Sets the machine that is asked for, and does what is to be done with it.
fn carry_out(heap: Global, request: Request) -> Result<Outcome, Failure>
    ensures { (ws : List Word) → Asks ws request → Requested ws result }
{
    let n = request.tray_count();
    let bytes = request.tray_bytes();
    let Request {
        kind,
        span,
        action,
        ..
    } = request;
    let setup = Setup { n, span: (), bytes };
    match kind {
        Kind::Plain => attempt(heap, kind, Gaps, &setup, action).map(Outcome::Plain),
        Kind::Sided => attempt(heap, kind, Breakpoints, &setup, action).map(Outcome::Sided),
        Kind::Ring => {
            let span = span.unwrap_or(0);
            let setup = Setup { n, span, bytes };
            attempt(heap, kind, HalfGaps, &setup, action).map(Outcome::Ring)
        }
    }
}
