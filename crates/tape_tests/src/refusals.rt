ghost use Rattle.std.specs.Prelude.{◌<◌};

use crate::commands::{COUNTING, fetched, found, none, padded, ring, tower, work};
use crate::desk::{check, check_refused};
use std::process::Abort;
use std::test::*;
use tape::{Command, Fault, Placed};

#[test]
fn numbers_of_trays(rt: HostRuntime) -> Result<(), Fail> {
    for at_work in [false, true] {
        for n in [0, 33, 34, 128, 255] {
            check_refused(
                &rt,
                at_work,
                &[
                    (&tower(b'P', 5, n, &COUNTING), 6, 2),
                    (&tower(b'S', 5, n, &COUNTING), 6, 2),
                    (&ring(5, n, 2, &COUNTING), 6, 2),
                ],
            )?;
        }
        for n in 1..4 {
            check_refused(&rt, at_work, &[(&ring(5, n, 2, &COUNTING), 6, 2)])?;
        }
    }
    Ok(())
}

#[test]
fn spans(rt: HostRuntime) -> Result<(), Fail> {
    for at_work in [false, true] {
        for (n, span) in [(4, 0), (4, 1), (4, 5), (5, 6), (32, 1), (32, 33), (32, 255)] {
            check_refused(&rt, at_work, &[(&ring(5, n, span, &COUNTING), 7, 3)])?;
        }
    }
    Ok(())
}

// The loads of these trays are refused so, at the tray byte of this index.
fn check_trays(
    rt: &(impl Abort + AllocGlobal),
    n: u8,
    trays: &[u8],
    number: u8,
    index: u16,
) -> Result<(), Fail>
    requires { index < 32 }
{
    check_refused(
        rt,
        index % 2 == 0,
        &[
            (&tower(b'P', 64, n, trays), number, 3 + index),
            (&tower(b'S', 64, n, trays), number, 3 + index),
            (&ring(64, n, 2, trays), number, 4 + index),
        ],
    )
}

// Each tray byte in turn has no number of a tray, that of an earlier one, or a number past the last tray.
#[test]
fn tray_bytes(rt: HostRuntime) -> Result<(), Fail> {
    for index in 0..32u16 {
        let place = usize::from(index);
        for byte in [0, 33, 128] {
            let mut trays = COUNTING;
            trays[place] = byte;
            check_trays(&rt, 32, &trays, 8, index)?;
        }
        if place >= 1 {
            let mut trays = COUNTING;
            trays[place] = trays[place - 1];
            check_trays(&rt, 32, &trays, 9, index)?;
        }
        if place >= 4 {
            let mut trays = padded::<32>(&[4, 3, 2, 1]);
            trays[place] = 128;
            check_trays(&rt, 4, &trays, 10, index)?;
        }
    }
    Ok(())
}

// In a sided tower the low seven bits are the number.
#[test]
fn sides(rt: HostRuntime) -> Result<(), Fail> {
    check_refused(
        &rt,
        false,
        &[
            (&tower(b'P', 5, 3, &[1, 130, 3]), 8, 4),
            (&tower(b'S', 5, 3, &[129, 128, 131]), 8, 4),
            (&tower(b'S', 5, 3, &[129, 130, 132]), 8, 5),
            (&tower(b'S', 5, 3, &[1, 2, 129]), 9, 5),
            (&tower(b'S', 5, 3, &[131, 2, 131]), 9, 5),
            (&tower(b'S', 5, 3, &[1, 2, 3, 0, 128]), 10, 7),
            (&ring(5, 4, 2, &[1, 2, 131, 4]), 8, 6),
        ],
    )
}

#[test]
fn while_no_task_is_at_work(rt: HostRuntime) -> Result<(), Fail> {
    check_refused(
        &rt,
        false,
        &[
            (&tower(b'P', 65, 3, &[1, 3, 2]), 12, 1),
            (&tower(b'S', 66, 2, &[129, 130]), 12, 1),
            (&ring(255, 4, 2, &[2, 1, 4, 3]), 12, 1),
            (&work(0), 14, 0),
            (&work(1), 14, 0),
            (&work(1_000_001), 14, 0),
            (&work(u32::MAX), 14, 0),
            (b"G", 14, 0),
            (b"F", 17, 0),
            (b"D", 18, 0),
        ],
    )
}

#[test]
fn while_a_task_is_at_work(rt: HostRuntime) -> Result<(), Fail> {
    check_refused(
        &rt,
        true,
        &[
            (&tower(b'P', 65, 3, &[1, 3, 2]), 12, 1),
            (&tower(b'S', 66, 2, &[129, 130]), 12, 1),
            (&ring(255, 4, 2, &[2, 1, 4, 3]), 12, 1),
            (&tower(b'P', 64, 3, &[1, 3, 2]), 13, 0),
            (&tower(b'S', 0, 2, &[129, 130]), 13, 0),
            (&ring(5, 4, 2, &[2, 1, 4, 3]), 13, 0),
            (&work(0), 15, 1),
            (&work(1_000_001), 15, 1),
            (&work(u32::MAX), 15, 1),
            (b"F", 17, 0),
        ],
    )
}

// The lower number is told, where the byte of the higher one comes earlier too.
#[test]
fn two_faults_in_a_load(rt: HostRuntime) -> Result<(), Fail> {
    for at_work in [false, true] {
        check_refused(
            &rt,
            at_work,
            &[
                (&tower(b'P', 65, 33, &[1, 3, 2]), 6, 2),
                (&tower(b'S', 65, 0, &[1, 3, 2]), 6, 2),
                (&ring(65, 3, 9, &[1, 1, 9]), 6, 2),
                (&ring(65, 4, 1, &[1, 2, 3, 4]), 7, 3),
                (&ring(5, 4, 5, &[1, 1, 9, 4, 5]), 7, 3),
                (&tower(b'P', 65, 3, &[0, 3, 2]), 8, 3),
                (&tower(b'P', 5, 3, &[1, 1, 9]), 8, 5),
                (&tower(b'S', 5, 3, &[1, 129, 128, 7]), 8, 5),
                (&ring(5, 4, 2, &[4, 4, 4, 5, 6]), 8, 7),
                (&tower(b'P', 5, 3, &[9, 1, 1]), 8, 3),
                (&tower(b'P', 5, 3, &[9, 0, 1]), 8, 3),
                (&tower(b'P', 65, 3, &[1, 1, 2, 9]), 9, 4),
                (&tower(b'S', 5, 3, &[3, 3, 3, 9]), 9, 4),
                (&ring(65, 4, 2, &[1, 2, 2, 1, 9]), 9, 6),
                (&tower(b'P', 65, 3, &[1, 2, 3, 9, 9]), 10, 6),
                (&tower(b'S', 65, 3, &[1, 2, 3, 0, 9]), 10, 7),
                (&ring(65, 4, 2, &[1, 2, 3, 4, 9]), 10, 8),
            ],
        )?;
    }
    Ok(())
}

// The least and the greatest that a load may have.
#[test]
fn accepted_loads(rt: HostRuntime) -> Result<(), Fail> {
    check(
        &rt,
        &[
            (&tower(b'P', 64, 32, &COUNTING), b"A"),
            (&work(1), &found(0, 1)),
            (b"F", &fetched(&[])),
            (&tower(b'P', 0, 1, &[1]), b"A"),
            (&work(1), &found(0, 1)),
            (&tower(b'S', 64, 32, &COUNTING), b"A"),
            (&work(1), &found(0, 1)),
            (b"F", &fetched(&[])),
            (&tower(b'S', 0, 1, &[129]), b"A"),
            (&work(1), &none(1)),
            (&ring(0, 32, 2, &COUNTING), b"A"),
            (&work(1), &found(0, 1)),
            (&ring(64, 32, 32, &COUNTING), b"A"),
            (b"D", b"A"),
            (&ring(64, 4, 4, &[4, 3, 2, 1]), b"A"),
            (&work(2), &found(1, 2)),
            (b"F", &fetched(&[1])),
        ],
    )
}

// No tape comes to these two.
#[test]
fn told_by_hand(rt: HostRuntime) -> Result<(), Fail> {
    let grant = [0, 0, 0, 1];
    let word = Placed {
        command: Command::Work(&grant),
        place: 300,
    };
    let short = Placed {
        command: Command::Go,
        place: 300,
    };
    let sum = Fault::Planner(planner::Fault::GrantSum);
    let turn = Fault::Machine(machine::Fault::NoSuchTurn);
    assert_eq!(rt; word.refused(sum).bytes(), [0x45, 4, 16, 1, 45]);
    assert_eq!(rt; short.refused(sum).bytes(), [0x45, 4, 16, 1, 44]);
    assert_eq!(rt; word.refused(turn).bytes(), [0x45, 3, 11, 1, 44]);
    Ok(())
}
