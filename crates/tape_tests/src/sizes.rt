use crate::commands::{COUNTING, fetched, found, refused, ring, tower, work, working};
use crate::desk::{UNTOUCHED, ask, behind_drops, replies, written};
use console::{Console, LONGEST_TAPE};
use std::process::Abort;
use std::test::*;
use tape::{Fault, LONGEST_REPLY, Refusal};

#[test]
fn no_bytes(rt: HostRuntime) -> Result<(), Fail> {
    assert_eq!(rt; replies(&rt, &[])?.len(), 0);
    let mut console = Console::new();
    ask(&rt, &mut console, &[], 0, 0, &[]);
    Ok(())
}

// The longest tape has a command at each place.
#[test]
fn longest_tape(rt: HostRuntime) -> Result<(), Fail> {
    assert_eq!(rt; LONGEST_TAPE, 4096);
    let tape = vec![in rt.alloc(); b'D'; 4096]?;
    let mut console = Console::new();
    let mut told = Vec::new(rt.alloc());
    for place in 0..4096u16 {
        let reply = refused(18, place);
        let at = usize::from(place);
        ask(&rt, &mut console, &tape, at, at + 1, &reply);
        told.extend_from_slice(&reply)?;
    }
    ask(&rt, &mut console, &tape, 4096, 4096, &[]);
    let all = replies(&rt, &tape)?;
    assert_eq!(rt; all.as_slice(), told.as_slice());
    assert_eq!(rt; all.last_chunk(), Some(&[0x45, 0x04, 0x12, 0x0F, 0xFF]));
    Ok(())
}

// A load ends at the end of the longest tape, or past it.
#[test]
fn last_bytes(rt: HostRuntime) -> Result<(), Fail> {
    let mut trays = COUNTING;
    trays[31] = 33;
    let plain = tower(b'P', 64, 32, &trays);
    let ring = ring(64, 32, 2, &trays);
    let cases: [(u16, &[u8], u8, u16); 3] = [
        (4061, &plain, 8, 4095),
        (4060, &ring, 8, 4095),
        (4062, &plain[..34], 5, 4062),
    ];
    for (place, load, number, at) in cases {
        let tape = behind_drops(rt.alloc(), place, load)?;
        let mut console = Console::new();
        ask(
            &rt,
            &mut console,
            &tape,
            usize::from(place),
            4096,
            &refused(number, at),
        );
    }
    Ok(())
}

// The call is refused as a whole, where the room for the reply has this size.
fn refuse(
    rt: &impl Abort,
    console: &mut Console,
    tape: &[u8],
    place: usize,
    size: usize,
    fault: Fault,
) {
    let mut room = UNTOUCHED;
    assert_eq!(rt;
        console.run(tape, place, &mut room[..size.min(70)]),
        Err(Refusal { fault, place: 0 }),
        "at place {place} with room {size}"
    );
    assert_eq!(rt; room, UNTOUCHED);
}

// What is refused as a whole leaves the task.
#[test]
fn calls(rt: HostRuntime) -> Result<(), Fail> {
    assert_eq!(rt; LONGEST_REPLY, 66);
    let load = tower(b'P', 64, 3, &[1, 3, 2]);
    let long = vec![in rt.alloc(); b'D'; 4097]?;
    let mut console = Console::new();
    let c = &mut console;
    ask(&rt, c, &load, 0, 35, b"A");
    for size in [0, 1, 65, 66, 70] {
        for place in [0, 1, 4096, 4097, 4098, usize::MAX] {
            refuse(&rt, c, &long, place, size, Fault::TapeLength);
        }
        for place in [3, 4, 4096, 65536, 65537, usize::MAX] {
            refuse(&rt, c, b"Dx", place, size, Fault::Place);
        }
    }
    ask(&rt, c, &work(3), 0, 5, &working(3));
    for size in [0, 1, 64, 65] {
        // commands, no command, operands cut short, and the tape's end
        for (place, tape) in [
            (0, b"DDDD"),
            (0, b"xDDD"),
            (2, b"DxxD"),
            (1, b"DWWW"),
            (4, b"DDDD"),
        ] {
            refuse(&rt, c, tape, place, size, Fault::ReplyRoom);
        }
    }
    ask(&rt, c, &work(1), 0, 5, &found(3, 4));
    refuse(&rt, c, b"F", 0, 65, Fault::ReplyRoom);
    ask(&rt, c, b"F", 0, 1, &fetched(&[2, 3, 2]));
    Ok(())
}

#[test]
fn told_whole(rt: HostRuntime) -> Result<(), Fail> {
    let long = vec![in rt.alloc(); b'D'; 4097]?;
    assert_eq!(rt;
        replies(&rt, &long)?.as_slice(),
        [0x45, 1, 1, 0, 0].as_slice()
    );
    for (fault, number) in [
        (Fault::TapeLength, 1),
        (Fault::Place, 2),
        (Fault::ReplyRoom, 3),
    ] {
        assert_eq!(rt;
            Refusal { fault, place: 0 }.bytes(),
            [0x45, 1, number, 0, 0]
        );
    }
    Ok(())
}

// The longest reply in rooms of 66 bytes and more.
#[test]
fn rooms(rt: HostRuntime) -> Result<(), Fail> {
    let load = tower(b'P', 64, 3, &[1, 3, 2]);
    let mut console = Console::new();
    ask(&rt, &mut console, &load, 0, 35, b"A");
    ask(&rt, &mut console, &work(4), 0, 5, &found(3, 4));
    for size in 66..=70 {
        let mut room = UNTOUCHED;
        let ran = console
            .run(b"F", 0, &mut room[..size])
            .ok()
            .ok_or("refused")?;
        assert_eq!(rt; ran.next, 1);
        assert_eq!(rt; ran.count, 66);
        assert_eq!(rt; room, written(&fetched(&[2, 3, 2])));
    }
    Ok(())
}
