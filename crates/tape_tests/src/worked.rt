use crate::commands::{fetched, found, none, refused, ring, tower, work, working};
use crate::desk::{MARK, ask, check, replies};
use console::{Console, write_replies};
use std::test::*;

// The first worked tape: a load, two grants and a fetch.
const TAPE: [u8; 46] = [
    0x50, 0x05, 0x03, 0x01, 0x03, 0x02, 0, 0, 0, 0, 0, 0, 0, 0, 0, 0, 0, 0, 0, 0, 0, 0, 0, 0, 0, 0,
    0, 0, 0, 0, 0, 0, 0, 0, 0, 0x57, 0x00, 0x00, 0x00, 0x03, 0x57, 0x00, 0x00, 0x00, 0x01, 0x46,
];

const REPLIES: [u8; 78] = [
    0x41, 0x42, 0x00, 0x00, 0x00, 0x03, 0x59, 0x03, 0x00, 0x00, 0x00, 0x04, 0x54, 0x03, 0x02, 0x03,
    0x02, 0, 0, 0, 0, 0, 0, 0, 0, 0, 0, 0, 0, 0, 0, 0, 0, 0, 0, 0, 0, 0, 0, 0, 0, 0, 0, 0, 0, 0, 0,
    0, 0, 0, 0, 0, 0, 0, 0, 0, 0, 0, 0, 0, 0, 0, 0, 0, 0, 0, 0, 0, 0, 0, 0, 0, 0, 0, 0, 0, 0, 0,
];

#[test]
fn two_tapes(rt: HostRuntime) -> Result<(), Fail> {
    assert_eq!(rt; replies(&rt, &TAPE)?.as_slice(), REPLIES.as_slice());
    assert_eq!(rt;
        replies(&rt, b"D")?.as_slice(),
        [0x45, 0x04, 0x12, 0x00, 0x00].as_slice()
    );
    Ok(())
}

// A room holds the first of the replies, as far as it goes, and what is past them stays.
#[test]
fn rooms(rt: HostRuntime) -> Result<(), Fail> {
    for size in [0usize, 1, 5, 12, 77, 78, 80] {
        let mut room = [MARK; 80];
        assert_eq!(rt;
            write_replies(&TAPE, &mut room[..size]),
            78,
            "in {size} bytes"
        );
        let told = size.min(78);
        assert_eq!(rt; &room[..told], &REPLIES[..told], "in {size} bytes");
        assert_eq!(rt;
            room[told..].iter().all(|byte| *byte == MARK),
            true,
            "in {size} bytes"
        );
    }
    Ok(())
}

// Each call is at a place, leads to the next one, and writes its part of the replies.
#[test]
fn call_by_call(rt: HostRuntime) -> Result<(), Fail> {
    let mut console = Console::new();
    ask(&rt, &mut console, &TAPE, 0, 35, &REPLIES[..1]);
    ask(&rt, &mut console, &TAPE, 35, 40, &REPLIES[1..6]);
    ask(&rt, &mut console, &TAPE, 40, 45, &REPLIES[6..12]);
    ask(&rt, &mut console, &TAPE, 45, 46, &REPLIES[12..]);
    ask(&rt, &mut console, &TAPE, 46, 46, &[]);
    // the fetch again, and the drop of a tape of its own
    ask(&rt, &mut console, &TAPE, 45, 46, &REPLIES[12..]);
    ask(
        &rt,
        &mut console,
        b"D",
        0,
        1,
        &[0x45, 0x04, 0x12, 0x00, 0x00],
    );
    Ok(())
}

// A task of each kind is found, and one has no plan within its limit.
#[test]
fn each_kind(rt: HostRuntime) -> Result<(), Fail> {
    check(
        &rt,
        &[
            (&tower(b'P', 64, 4, &[1, 2, 4, 3]), b"A"),
            (&work(6), &working(6)),
            (&work(1), &found(3, 7)),
            (b"F", &fetched(&[4, 2, 4])),
            (&tower(b'S', 4, 2, &[129, 130]), b"A"),
            (&work(1_000_000), &found(4, 8)),
            (b"F", &fetched(&[1, 2, 1, 2])),
            (&tower(b'S', 3, 2, &[129, 130]), b"A"),
            (&work(2), &working(2)),
            (&work(2), &none(3)),
            (b"F", &refused(17, 132)),
            (&ring(2, 4, 2, &[2, 1, 4, 3]), b"A"),
            (&work(3), &working(3)),
            (&work(9), &found(2, 4)),
            (b"F", &fetched(&[1, 3])),
            (b"F", &fetched(&[1, 3])),
        ],
    )
}
