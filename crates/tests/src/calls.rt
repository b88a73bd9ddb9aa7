use crate::checked_planner::CheckedPlanner;
use crate::given::{LAYERED, home, ring, tower};
use estimate::Estimate;
use gaps::{Breakpoints, Gaps, HalfGaps};
use machine::Machine;
use planner::{Answer, Call, Fault};
use std::process::Abort;
use std::test::*;
use towers::{PlainTower, SidedTower, SidedTray};
use trays::Settable;

// What is refused while no task is at work.
fn check_idle(
    rt: &impl Abort,
    planner: &mut CheckedPlanner<PlainTower, Gaps>,
    machine: PlainTower,
) {
    for limit in [65, 66, 255] {
        planner.refuse(rt, Call::Load { machine, limit }, Fault::Limit);
    }
    for grant in [0, 1, 1_000_000, 1_000_001, u32::MAX] {
        planner.refuse(rt, Call::Work { grant }, Fault::NoTask);
    }
    planner.refuse(rt, Call::Drop, Fault::NothingToDrop);
}

#[test]
fn empty(rt: HostRuntime) -> Result<(), Fail> {
    let t = tower::<u8>(3, &[1, 3, 2])?;
    let mut planner = CheckedPlanner::new(t, Gaps);
    check_idle(&rt, &mut planner, t);
    planner.fetch_nothing(&rt);
    Ok(())
}

#[test]
fn found(rt: HostRuntime) -> Result<(), Fail> {
    let t = tower::<u8>(3, &[1, 3, 2])?;
    let mut planner = CheckedPlanner::new(t, Gaps);
    planner.find(&rt, t, 64, 7, &[2, 3, 2]);
    check_idle(&rt, &mut planner, t);
    planner.fetch(&rt, &[2, 3, 2]);
    planner.fetch(&rt, &[2, 3, 2]);
    Ok(())
}

#[test]
fn out_of_plans(rt: HostRuntime) -> Result<(), Fail> {
    let t = tower::<u8>(3, &[1, 3, 2])?;
    let mut planner = CheckedPlanner::new(t, Gaps);
    planner.find_none(&rt, t, 2, 3);
    check_idle(&rt, &mut planner, t);
    planner.fetch_nothing(&rt);
    Ok(())
}

// What is refused while a task is at work, where the machine is another one than the task's.
fn check_at_work(
    rt: &impl Abort,
    planner: &mut CheckedPlanner<PlainTower, Gaps>,
    machine: PlainTower,
) {
    for limit in [65, 66, 255] {
        planner.refuse(rt, Call::Load { machine, limit }, Fault::Limit);
    }
    for limit in [0, 3, 64] {
        planner.refuse(rt, Call::Load { machine, limit }, Fault::AtWork);
    }
    for grant in [0, 1_000_001, u32::MAX] {
        planner.refuse(rt, Call::Work { grant }, Fault::Grant);
    }
    planner.fetch_nothing(rt);
}

// The task goes on as if nothing else had been asked.
#[test]
fn at_work(rt: HostRuntime) -> Result<(), Fail> {
    let t = tower::<u8>(4, &[1, 2, 4, 3])?;
    let other = tower::<u8>(4, &[4, 2, 3, 1])?;
    let mut planner = CheckedPlanner::new(other, Gaps);
    planner.load(&rt, t, 64);
    for made in 1..13 {
        check_at_work(&rt, &mut planner, other);
        planner.ask(
            &rt,
            Call::Work { grant: 1 },
            Answer::Working { looks: made },
        );
    }
    check_at_work(&rt, &mut planner, other);
    planner.ask(
        &rt,
        Call::Work { grant: 1 },
        Answer::Found {
            length: 3,
            looks: 13,
        },
    );
    planner.fetch(&rt, &[4, 2, 4]);
    Ok(())
}

#[test]
fn limits_of_plain_towers(rt: HostRuntime) -> Result<(), Fail> {
    let t = tower::<u8>(3, &[1, 3, 2])?;
    let mut planner = CheckedPlanner::new(t, Gaps);
    planner.find_none(&rt, t, 0, 1);
    planner.find_none(&rt, t, 1, 1);
    planner.find_none(&rt, t, 2, 3);
    planner.find(&rt, t, 3, 7, &[2, 3, 2]);
    planner.find_none(&rt, tower::<u8>(2, &[2, 1])?, 0, 1);
    planner.find_none(&rt, tower::<u8>(5, &[1, 3, 2, 5, 4])?, 4, 22);
    for n in 1..=32 {
        planner.find(&rt, home(n, ())?, 0, 1, &[]);
    }
    Ok(())
}

#[test]
fn limits_of_layered_estimates(rt: HostRuntime) -> Result<(), Fail> {
    let t = tower::<u8>(3, &[1, 3, 2])?;
    let mut planner = CheckedPlanner::new(t, LAYERED);
    planner.find_none(&rt, t, 2, 1);
    planner.find(&rt, t, 3, 4, &[2, 3, 2]);
    planner.find(&rt, home(3, ())?, 0, 1, &[]);
    Ok(())
}

#[test]
fn limits_of_sided_towers(rt: HostRuntime) -> Result<(), Fail> {
    let t = tower::<SidedTray>(2, &[129, 130])?;
    let mut planner = CheckedPlanner::new(t, Breakpoints);
    planner.find_none(&rt, t, 1, 1);
    planner.find_none(&rt, t, 2, 3);
    planner.find_none(&rt, t, 3, 8);
    planner.find(&rt, t, 4, 13, &[1, 2, 1, 2]);
    planner.find(&rt, home(32, ())?, 0, 1, &[]);
    Ok(())
}

#[test]
fn limits_of_rings(rt: HostRuntime) -> Result<(), Fail> {
    let r = ring(4, 2, &[2, 1, 4, 3])?;
    let mut planner = CheckedPlanner::new(r, HalfGaps);
    planner.find_none(&rt, r, 0, 5);
    planner.find_none(&rt, r, 1, 5);
    planner.find(&rt, r, 2, 9, &[1, 3]);
    planner.find(&rt, home(32, 5)?, 0, 1, &[]);
    Ok(())
}

// `five` begins with the threshold 4, which is also the least total that was cut in the last round of `four`.
#[test]
fn load_after_found(rt: HostRuntime) -> Result<(), Fail> {
    let three = tower::<u8>(3, &[1, 3, 2])?;
    let four = tower::<u8>(4, &[1, 2, 4, 3])?;
    let five = tower::<u8>(5, &[2, 4, 3, 5, 1])?;
    let mut planner = CheckedPlanner::new(three, Gaps);
    planner.find(&rt, four, 64, 13, &[4, 2, 4]);
    planner.find(&rt, five, 64, 20, &[2, 3, 2, 4, 5]);
    planner.find(&rt, three, 64, 7, &[2, 3, 2]);
    planner.find(&rt, home(32, ())?, 0, 1, &[]);
    planner.find(&rt, four, 3, 13, &[4, 2, 4]);
    Ok(())
}

// The first two that are found begin with the threshold that was not allowed before.
#[test]
fn load_out_of_plans(rt: HostRuntime) -> Result<(), Fail> {
    let three = tower::<u8>(3, &[1, 3, 2])?;
    let four = tower::<u8>(4, &[4, 2, 3, 1])?;
    let five = tower::<u8>(5, &[2, 4, 3, 5, 1])?;
    let mut planner = CheckedPlanner::new(three, Gaps);
    planner.find_none(&rt, three, 2, 3);
    planner.find(&rt, four, 64, 12, &[2, 3, 2, 4]);
    planner.find_none(&rt, four, 3, 6);
    planner.find(&rt, five, 5, 20, &[2, 3, 2, 4, 5]);
    planner.find_none(&rt, three, 1, 1);
    planner.find_none(&rt, three, 2, 3);
    planner.find(&rt, three, 64, 7, &[2, 3, 2]);
    Ok(())
}

// A task is dropped after so many looks, and the planner is empty.
fn drop_after<M: Machine + Copy + Drop, E: Estimate<M> + Drop>(
    rt: &impl Abort,
    planner: &mut CheckedPlanner<M, E>,
    machine: M,
    looks: u32,
) {
    planner.load(rt, machine, 64);
    if looks > 0 {
        planner.ask(rt, Call::Work { grant: looks }, Answer::Working { looks });
    }
    planner.ask(rt, Call::Drop, Answer::Accepted);
    planner.refuse(rt, Call::Work { grant: 1 }, Fault::NoTask);
    planner.refuse(rt, Call::Drop, Fault::NothingToDrop);
    planner.fetch_nothing(rt);
}

// After each number of looks but all, the first task is dropped; the next one has the looks and the plan that it has alone.
fn check_dropped<M: Machine + Copy + Drop, E: Estimate<M> + Drop>(
    rt: &impl Abort,
    planner: &mut CheckedPlanner<M, E>,
    first: (M, u32),
    next: (M, u32),
    plan: &[u8],
) {
    for made in 0..first.1 {
        drop_after(rt, planner, first.0, made);
        planner.find(rt, next.0, 64, next.1, plan);
    }
}

// The next tower needs two rounds, and turn 2 first.
#[test]
fn dropped_plain_towers(rt: HostRuntime) -> Result<(), Fail> {
    let first = tower::<u8>(4, &[1, 2, 4, 3])?;
    let next = tower::<u8>(4, &[4, 2, 3, 1])?;
    let mut planner = CheckedPlanner::new(first, Gaps);
    check_dropped(&rt, &mut planner, (first, 13), (next, 12), &[2, 3, 2, 4]);
    Ok(())
}

// The next tower needs two rounds, and turn 1 first.
#[test]
fn dropped_sided_towers(rt: HostRuntime) -> Result<(), Fail> {
    let first = tower::<SidedTray>(2, &[129, 130])?;
    let next = tower::<SidedTray>(3, &[130, 131, 129])?;
    let mut planner = CheckedPlanner::new(SidedTower::new(), Breakpoints);
    check_dropped(&rt, &mut planner, (first, 13), (next, 10), &[1, 2, 1, 3]);
    Ok(())
}

// The next ring needs two rounds, of which the first has the threshold 0.
#[test]
fn dropped_rings(rt: HostRuntime) -> Result<(), Fail> {
    let first = ring(4, 2, &[1, 4, 3, 2])?;
    let next = ring(4, 2, &[2, 1, 4, 3])?;
    let mut planner = CheckedPlanner::new(first, HalfGaps);
    check_dropped(&rt, &mut planner, (first, 52), (next, 9), &[1, 3]);
    Ok(())
}

#[test]
fn made_with_any_machine(rt: HostRuntime) -> Result<(), Fail> {
    let t = tower::<u8>(3, &[1, 3, 2])?;
    let two = tower::<u8>(2, &[2, 1])?;
    for machine in [home(1, ())?, home(32, ())?, two, t] {
        let mut planner = CheckedPlanner::new(machine, Gaps);
        check_idle(&rt, &mut planner, t);
        planner.fetch_nothing(&rt);
        planner.find(&rt, t, 64, 7, &[2, 3, 2]);
    }
    Ok(())
}

#[test]
fn numbers_of_faults(rt: HostRuntime) -> Result<(), Fail> {
    assert_eq!(rt; Fault::Limit.number(), 12);
    assert_eq!(rt; Fault::AtWork.number(), 13);
    assert_eq!(rt; Fault::NoTask.number(), 14);
    assert_eq!(rt; Fault::Grant.number(), 15);
    assert_eq!(rt; Fault::GrantSum.number(), 16);
    assert_eq!(rt; Fault::NotFound.number(), 17);
    assert_eq!(rt; Fault::NothingToDrop.number(), 18);
    Ok(())
}
