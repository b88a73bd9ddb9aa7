//! Answers lines that people write: what comes of each is drawn, or told why nothing was done.

#![tactic(auto)]

mod after_name;
mod block;
mod counted;
mod help;
mod line;
mod listed;
mod other_turns;
mod reason;
mod row;
mod shown;

use after_name::AfterName;
use help::show_help;
use line::Line;
use std::io::{BufRead, BufReader};
use std::{env, io};

// Answers the arguments as one line, or else each line of standard input.
fn run(rt: &HostRuntime) -> anyhow::Result<()> {
    let arguments = arguments(rt)?;
    let line = Line {
        number: None,
        text: arguments.as_str(),
    };
    if !line.answer(rt)? && !answer_lines(rt)? {
        show_help(rt)?;
    }
    Ok(())
}

// The arguments, with a space before each.
fn arguments(rt: &HostRuntime) -> anyhow::Result<String> {
    let mut line = String::new(rt.alloc());
    for argument in env::args(&(AfterName(rt), rt.alloc()))? {
        line.push(' ')?;
        line.push_str(argument.as_str())?;
    }
    Ok(line)
}

// Answers each line of standard input, and tells whether any asked for something.
fn answer_lines(rt: &HostRuntime) -> anyhow::Result<bool> {
    let mut asked = false;
    let lines = BufReader::new(rt.alloc(), rt.stdin())?.lines(rt.alloc());
    for (i, line) in lines.enumerate() {
        let number = Some(i.saturating_add(1));
        match line {
            Ok(text) => {
                let text = text.as_str();
                asked |= Line { number, text }.answer(rt)?;
            }
            Err(e) => {
                let line = Line { number, text: "" };
                not_text(rt, line, e)?;
                asked = true;
            }
        }
    }
    Ok(asked)
}

// Tells of a line that is not text; any other error ends the program.
fn not_text(rt: &HostRuntime, line: Line<'_>, e: io::Error) -> io::Result<()> {
    if e.kind() != io::ErrorKind::InvalidData {
        return Err(e);
    }
    println!(rt; "{line}not understood: it is not UTF-8 text")
}

fn main(rt: HostRuntime) -> anyhow::Result<()> {
    run(&rt)
}
