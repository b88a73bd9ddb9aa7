use crate::counted::Counted;
use crate::help::{asks_help, show_help};
use crate::reason::Reason;
use crate::shown::show;
use machine::Fault;
use outcome::{Failure, perform};
use std::{fmt, io};
use text::Expected;
use trays::Kind;

// A line that is answered, and its number, from 1, where it is one of several.
#[derive(Clone, Copy)]
pub(crate) struct Line<'a> {
    pub(crate) number: Option<usize>,
    pub(crate) text: &'a str,
}

impl<'a> Line<'a> {
    // Does what the line asks for, prints what came of it, and tells whether it asked for anything.
    pub(crate) fn answer(&self, rt: &HostRuntime) -> anyhow::Result<bool> {
        if asks_help(self.text) {
            show_help(rt)?;
            return Ok(true);
        }
        match perform(rt.alloc(), self.text) {
            Ok(None) => return Ok(false),
            Ok(Some(outcome)) => show(rt, *self, &outcome)?,
            Err(Failure::Unexpected { at, expected }) => self.explain(rt, at, expected)?,
            Err(Failure::Refused { kind, fault }) => self.refuse(rt, kind, fault)?,
            Err(failure @ Failure::NoMemory) => return Err(failure.into()),
        }
        Ok(true)
    }

    // Says where a line is not understood, and what was expected there.
    fn explain(&self, rt: &HostRuntime, at: usize, expected: Expected) -> io::Result<()> {
        let place = at.saturating_add(1);
        let or_help = if expected == Expected::Kind {
            ", or `help` alone"
        } else {
            ""
        };
        match self.word(at) {
            Some(word) => println!(rt;
                "{self}not understood at word {place}, `{word}`: expected {expected}{or_help}"
            ),
            None => println!(rt;
                "{self}not understood: it ends after {}: expected {expected}{or_help}",
                Counted(at, "word")
            ),
        }
    }

    // Says why a machine of this kind was not set, and at which tray. The trays are the words after the kind, up to `count`.
    fn refuse(&self, rt: &HostRuntime, kind: Kind, fault: Fault) -> io::Result<()> {
        let number = fault.number();
        let reason = Reason { kind, fault };
        let Some(i) = fault.index() else {
            return println!(rt; "{self}refused {number}: {reason}");
        };
        let place = i.saturating_add(1);
        match self.word(place) {
            Some(word) if word != "count" => {
                println!(rt; "{self}refused {number} at place {place}, `{word}`: {reason}")
            }
            _ => println!(rt;
                "{self}refused {number} at place {place}: the line has no tray there"
            ),
        }
    }

    // The word at this index, from 0.
    fn word(&self, at: usize) -> Option<&'a str> {
        self.text.split_whitespace().nth(at)
    }
}

// Which line it is, before what is wrong with it.
impl<'a> fmt::Display for Line<'a> {
    fn fmt<W: fmt::Write>(&self, f: &mut fmt::Formatter<W>) -> fmt::Result {
        match self.number {
            Some(number) => write!(f, "line {number}: "),
            None => Ok(()),
        }
    }
}
