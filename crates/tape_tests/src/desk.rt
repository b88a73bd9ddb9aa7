use crate::commands::{found, refused, tower, work, working};
use console::{Console, LONGEST_REPLIES, Ran, write_replies};
use std::alloc::{AllocError, Global};
use std::process::Abort;
use std::test::*;

// What stands in the room for a reply before one is written.
pub(crate) const MARK: u8 = 0xA5;

// The room for a reply.
pub(crate) const UNTOUCHED: [u8; 70] = [MARK; 70];

// The room with this reply in it.
pub(crate) fn written(reply: &[u8]) -> [u8; 70] {
    let mut room = UNTOUCHED;
    for (byte, told) in room.iter_mut().zip(reply) {
        *byte = *told;
    }
    room
}

// The command at this place is replied so, and the next one stands there.
pub(crate) fn ask(
    rt: &impl Abort,
    console: &mut Console,
    tape: &[u8],
    place: usize,
    next: usize,
    reply: &[u8],
) {
    let mut room = UNTOUCHED;
    let count = reply.len();
    assert_eq!(rt;
        console.run(tape, place, &mut room),
        Ok(Ran { next, count }),
        "at place {place}"
    );
    assert_eq!(rt; room, written(reply), "at place {place}");
}

// All replies to a tape.
pub(crate) fn replies(rt: &impl AllocGlobal, tape: &[u8]) -> Result<Vec<u8>, AllocError> {
    let mut room = vec![in rt.alloc(); MARK; LONGEST_REPLIES]?;
    let count = write_replies(tape, &mut room);
    room.truncate(count);
    Ok(room)
}

// A command or more, and the reply.
pub(crate) type Step<'a> = (&'a [u8], &'a [u8]);

// A tape of these commands is replied so, as a whole and call by call.
pub(crate) fn check(rt: &(impl Abort + AllocGlobal), steps: &[Step]) -> Result<(), Fail> {
    let mut tape = Vec::new(rt.alloc());
    let mut told = Vec::new(rt.alloc());
    for (command, reply) in steps {
        tape.extend_from_slice(command)?;
        told.extend_from_slice(reply)?;
    }
    assert_eq!(rt; replies(rt, &tape)?.as_slice(), told.as_slice());
    let mut console = Console::new();
    let mut place = 0usize;
    for (command, reply) in steps {
        let next = place.saturating_add(command.len());
        ask(rt, &mut console, &tape, place, next, reply);
        place = next;
    }
    ask(rt, &mut console, &tape, place, place, &[]);
    Ok(())
}

// A command, the number that it is refused by, and how far after its letter the byte at fault stands.
pub(crate) type Refused<'a> = (&'a [u8], u8, u16);

// A console where no task is at work, or one.
fn console(rt: &impl Abort, at_work: bool) -> Console {
    let mut console = Console::new();
    if at_work {
        ask(
            rt,
            &mut console,
            &tower(b'P', 64, 3, &[1, 3, 2]),
            0,
            35,
            b"A",
        );
    }
    console
}

// A tape with the command at this place, behind drops.
pub(crate) fn behind_drops(
    heap: Global,
    place: u16,
    command: &[u8],
) -> Result<Vec<u8>, AllocError> {
    let mut tape = vec![in heap; b'D'; usize::from(place)]?;
    tape.extend_from_slice(command)?;
    Ok(tape)
}

// The commands are refused so at these places of a tape and of a longer one, where no task is at work, or one. That task then goes on.
pub(crate) fn check_refused(
    rt: &(impl Abort + AllocGlobal),
    at_work: bool,
    refusals: &[Refused],
) -> Result<(), Fail> {
    let mut console = console(rt, at_work);
    for place in [0u16, 1, 255, 300, 3000] {
        for (command, number, offset) in refusals {
            let mut tape = behind_drops(rt.alloc(), place, command)?;
            let next = tape.len();
            let reply = refused(*number, place.saturating_add(*offset));
            ask(rt, &mut console, &tape, usize::from(place), next, &reply);
            tape.push(b'D')?;
            ask(rt, &mut console, &tape, usize::from(place), next, &reply);
        }
    }
    if at_work {
        ask(rt, &mut console, &work(3), 0, 5, &working(3));
        ask(rt, &mut console, &work(1), 0, 5, &found(3, 4));
    }
    ask(rt, &mut console, b"D", 0, 1, &refused(18, 0));
    Ok(())
}
