//! Reads a tape from standard input and writes the replies to it.

#![tactic(auto)]

use console::{LONGEST_REPLIES, LONGEST_TAPE, write_replies};
use std::io::{Read, Write};

// One byte more than the longest tape is read, which shows that a tape is too long.
fn main(rt: HostRuntime) -> anyhow::Result<()> {
    let mut tape = Vec::new(rt.alloc());
    rt.stdin()
        .take(LONGEST_TAPE as u64 + 1)
        .read_to_end(&mut tape)?;
    let mut room = vec![in rt.alloc(); 0; LONGEST_REPLIES]?;
    let count = write_replies(&tape, &mut room);
    rt.stdout().write_all(&room[..count])?;
    Ok(())
}
