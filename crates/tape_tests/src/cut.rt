use crate::commands::{COUNTING, found, refused, ring, tower, work, working};
use crate::desk::{ask, check};
use console::Console;
use std::process::Abort;
use std::test::*;

// Cut short at each length the command is refused, and nothing of it is run.
fn check_cut(rt: &(impl Abort + AllocGlobal), command: &[u8]) -> Result<(), Fail> {
    for length in 1..command.len() {
        check(
            rt,
            &[
                (b"D", &refused(18, 0)),
                (&command[..length], &refused(5, 1)),
            ],
        )?;
    }
    Ok(())
}

// Among the bytes are letters of commands.
#[test]
fn cut_operands(rt: HostRuntime) -> Result<(), Fail> {
    check_cut(&rt, &tower(b'P', 5, 3, &[1, 3, 2]))?;
    check_cut(&rt, &tower(b'P', b'D', b'D', &[b'D'; 32]))?;
    check_cut(&rt, &tower(b'S', b'F', 1, &[129]))?;
    check_cut(&rt, &ring(b'G', 32, 32, &COUNTING))?;
    check_cut(&rt, &work(1))?;
    check_cut(&rt, b"WDDDD")
}

#[test]
fn unknown_letters(rt: HostRuntime) -> Result<(), Fail> {
    for byte in 0..=255u8 {
        if !b"PSRWGFD".contains(&byte) {
            check(
                &rt,
                &[
                    (b"D", &refused(18, 0)),
                    (b"F", &refused(17, 1)),
                    (&[byte, b'D', byte, b'F', 0], &refused(4, 2)),
                ],
            )?;
        }
    }
    Ok(())
}

// The task goes on with the next tape.
#[test]
fn next_tape(rt: HostRuntime) -> Result<(), Fail> {
    let load = tower(b'P', 64, 3, &[1, 3, 2]);
    let cut = &load[..34];
    let mut console = Console::new();
    ask(&rt, &mut console, &load, 0, 35, b"A");
    ask(&rt, &mut console, b"WDDD", 0, 4, &refused(5, 0));
    ask(&rt, &mut console, &work(2), 0, 5, &working(2));
    ask(&rt, &mut console, b"FxD", 1, 3, &refused(4, 1));
    ask(&rt, &mut console, &work(1), 0, 5, &working(3));
    ask(&rt, &mut console, cut, 0, 34, &refused(5, 0));
    ask(&rt, &mut console, &work(1), 0, 5, &found(3, 4));
    Ok(())
}
