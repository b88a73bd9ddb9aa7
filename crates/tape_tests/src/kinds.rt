use crate::commands::{fetched, found, none, refused, ring, tower, work, working};
use crate::desk::{ask, check};
use console::Console;
use std::process::Abort;
use std::test::*;

// A load, how many looks its search makes, and its plan.
type Task<'a> = (&'a [u8], u32, &'a [u8]);

// The command on a tape of its own is replied so.
fn tell(rt: &impl Abort, console: &mut Console, command: &[u8], reply: &[u8]) {
    ask(rt, console, command, 0, command.len(), reply);
}

// The rest of a task is found, and is fetched.
fn find(rt: &impl Abort, console: &mut Console, task: Task) {
    let (_, looks, plan) = task;
    let length = plan.len().min(64) as u8;
    tell(rt, console, &work(1_000_000), &found(length, looks));
    tell(rt, console, b"F", &fetched(plan));
}

// While the first task is at work neither is loaded, and the first goes on.
fn check_at_work(rt: &impl Abort, console: &mut Console, first: Task, other: Task) {
    tell(rt, console, first.0, b"A");
    for looks in 1..first.1 {
        tell(rt, console, other.0, &refused(13, 0));
        tell(rt, console, &work(1), &working(looks));
        tell(rt, console, first.0, &refused(13, 0));
        tell(rt, console, b"F", &refused(17, 0));
    }
    tell(rt, console, other.0, &refused(13, 0));
    find(rt, console, first);
}

// Where the first task is found or dropped the other is loaded, and then it is the one that is asked.
fn check_switch(rt: &impl Abort, console: &mut Console, first: Task, other: Task) {
    tell(rt, console, other.0, b"A");
    tell(rt, console, b"F", &refused(17, 0));
    tell(rt, console, b"D", b"A");
    tell(rt, console, b"F", &refused(17, 0));
    tell(rt, console, b"G", &refused(14, 0));
    tell(rt, console, b"D", &refused(18, 0));
    tell(rt, console, first.0, b"A");
    tell(rt, console, &work(1), &working(1));
    tell(rt, console, other.0, &refused(13, 0));
    tell(rt, console, b"D", b"A");
    tell(rt, console, other.0, b"A");
    find(rt, console, other);
    tell(rt, console, first.0, b"A");
    tell(rt, console, b"F", &refused(17, 0));
    find(rt, console, first);
}

#[test]
fn pairs(rt: HostRuntime) -> Result<(), Fail> {
    let plain = tower(b'P', 64, 3, &[1, 3, 2]);
    let sided = tower(b'S', 64, 2, &[129, 130]);
    let ring = ring(64, 4, 2, &[2, 1, 4, 3]);
    let plain: Task = (&plain, 4, &[2, 3, 2]);
    let sided: Task = (&sided, 8, &[1, 2, 1, 2]);
    let ring: Task = (&ring, 4, &[1, 3]);
    for (first, other) in [
        (plain, sided),
        (plain, ring),
        (sided, plain),
        (sided, ring),
        (ring, plain),
        (ring, sided),
        (plain, plain),
        (sided, sided),
        (ring, ring),
    ] {
        let mut console = Console::new();
        check_at_work(&rt, &mut console, first, other);
        check_switch(&rt, &mut console, first, other);
    }
    Ok(())
}

// A load that is refused leaves the plan that was found, and which planner is asked.
#[test]
fn refused_loads(rt: HostRuntime) -> Result<(), Fail> {
    check(
        &rt,
        &[
            (&tower(b'S', 64, 1, &[128]), &refused(8, 3)),
            (b"D", &refused(18, 35)),
            (&tower(b'P', 64, 3, &[1, 3, 2]), b"A"),
            (&work(4), &found(3, 4)),
            (&tower(b'S', 65, 1, &[129]), &refused(12, 77)),
            (b"F", &fetched(&[2, 3, 2])),
            (&ring(64, 4, 1, &[2, 1, 3, 4]), &refused(7, 115)),
            (b"F", &fetched(&[2, 3, 2])),
            (b"D", &refused(18, 149)),
            (&tower(b'S', 64, 1, &[129]), b"A"),
            (&tower(b'P', 64, 3, &[1, 3, 2]), &refused(13, 185)),
            (&work(2), &found(1, 2)),
            (&tower(b'P', 64, 3, &[1, 3, 3]), &refused(9, 230)),
            (b"F", &fetched(&[1])),
        ],
    )
}

// After a search with no plan a load of any kind is accepted.
#[test]
fn out_of_plans(rt: HostRuntime) -> Result<(), Fail> {
    check(
        &rt,
        &[
            (&tower(b'P', 2, 3, &[1, 3, 2]), b"A"),
            (b"G", &none(1)),
            (b"G", &refused(14, 36)),
            (&tower(b'S', 3, 2, &[129, 130]), b"A"),
            (b"G", &none(3)),
            (b"D", &refused(18, 73)),
            (&ring(0, 4, 2, &[2, 1, 3, 4]), b"A"),
            (b"G", &none(1)),
            (b"F", &refused(17, 111)),
            (&tower(b'P', 3, 3, &[1, 3, 2]), b"A"),
            (b"G", &found(3, 4)),
            (b"F", &fetched(&[2, 3, 2])),
        ],
    )
}

#[test]
fn nothing_loaded(rt: HostRuntime) -> Result<(), Fail> {
    check(
        &rt,
        &[
            (&work(1), &refused(14, 0)),
            (b"G", &refused(14, 5)),
            (b"F", &refused(17, 6)),
            (b"D", &refused(18, 7)),
            (&work(0), &refused(14, 8)),
        ],
    )
}
