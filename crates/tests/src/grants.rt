ghost use Rattle.std.specs.Prelude.{◌<◌, ◌≤◌};

use crate::checked_planner::CheckedPlanner;
use crate::given::{LAYERED, ring, tower};
use estimate::Estimate;
use gaps::{Breakpoints, Gaps, HalfGaps};
use machine::Machine;
use planner::{Answer, Call};
use std::process::Abort;
use std::test::*;
use towers::SidedTray;

// Each way to grant these looks: a grant ends after the last look, and after each other one or not.
fn check_splits<M: Machine + Copy + Drop, E: Estimate<M> + Drop>(
    rt: &impl Abort,
    machine: M,
    estimate: E,
    looks: u32,
    plan: &[u8],
)
    requires some { 0 < looks }
    requires few { looks ≤ 20 }
{
    let mut planner = CheckedPlanner::new(machine, estimate);
    for split in 0..1u32 << (looks - 1) {
        planner.load(rt, machine, 64);
        let mut grant = 0u32;
        for made in 1..looks {
            grant = grant.saturating_add(1);
            if (split >> (made - 1)) & 1 == 1 {
                planner.ask(rt, Call::Work { grant }, Answer::Working { looks: made });
                grant = 0;
            }
        }
        planner.ask(
            rt,
            Call::Work {
                grant: grant.saturating_add(1),
            },
            Answer::Found {
                length: plan.len().min(64) as u8,
                looks,
            },
        );
        planner.fetch(rt, plan);
    }
}

#[test]
fn splits_of_four(rt: HostRuntime) -> Result<(), Fail> {
    check_splits(&rt, tower::<u8>(3, &[1, 3, 2])?, LAYERED, 4, &[2, 3, 2]);
    Ok(())
}

#[test]
fn splits_of_seven(rt: HostRuntime) -> Result<(), Fail> {
    check_splits(&rt, tower::<u8>(3, &[1, 3, 2])?, Gaps, 7, &[2, 3, 2]);
    Ok(())
}

// The last grant is above what is left.
#[test]
fn more_than_is_left(rt: HostRuntime) -> Result<(), Fail> {
    let t = tower::<u8>(3, &[1, 3, 2])?;
    let mut planner = CheckedPlanner::new(t, Gaps);
    for grant in [8, 9, 1000, 1_000_000] {
        planner.load(&rt, t, 64);
        planner.ask(
            &rt,
            Call::Work { grant },
            Answer::Found {
                length: 3,
                looks: 7,
            },
        );
    }
    for made in 1..7 {
        planner.load(&rt, t, 64);
        planner.ask(
            &rt,
            Call::Work { grant: made },
            Answer::Working { looks: made },
        );
        planner.ask(
            &rt,
            Call::Work { grant: 8 - made },
            Answer::Found {
                length: 3,
                looks: 7,
            },
        );
    }
    Ok(())
}

// The search makes so many looks and gives this plan, by grants of 1, of 10 and of more than enough.
fn check_found<M: Machine + Copy + Drop, E: Estimate<M> + Drop>(
    rt: &impl Abort,
    machine: M,
    estimate: E,
    looks: u32,
    plan: &[u8],
) {
    let mut planner = CheckedPlanner::new(machine, estimate);
    for limit in [plan.len().min(64) as u8, 64] {
        for grant in [1, 10, 1_000_000] {
            planner.load(rt, machine, limit);
            planner.work(rt, grant, looks, Some(plan));
            planner.fetch(rt, plan);
        }
    }
}

#[test]
fn plain_towers(rt: HostRuntime) -> Result<(), Fail> {
    check_found(&rt, tower::<u8>(1, &[1])?, Gaps, 1, &[]);
    check_found(&rt, tower::<u8>(2, &[2, 1])?, Gaps, 2, &[2]);
    check_found(&rt, tower::<u8>(4, &[1, 2, 4, 3])?, Gaps, 13, &[4, 2, 4]);
    let t = tower::<u8>(7, &[1, 7, 4, 3, 2, 6, 5])?;
    check_found(&rt, t, Gaps, 204, &[4, 7, 5, 7, 4, 6]);
    Ok(())
}

#[test]
fn layered_estimates(rt: HostRuntime) -> Result<(), Fail> {
    check_found(&rt, tower::<u8>(3, &[1, 3, 2])?, LAYERED, 4, &[2, 3, 2]);
    let t = tower::<u8>(7, &[1, 4, 3, 2, 7, 6, 5])?;
    check_found(&rt, t, LAYERED, 110, &[3, 7, 5, 7, 5, 7]);
    Ok(())
}

#[test]
fn sided_towers(rt: HostRuntime) -> Result<(), Fail> {
    check_found(&rt, tower::<SidedTray>(1, &[129])?, Breakpoints, 2, &[1]);
    let t = tower::<SidedTray>(2, &[129, 130])?;
    check_found(&rt, t, Breakpoints, 13, &[1, 2, 1, 2]);
    let t = tower::<SidedTray>(3, &[2, 3, 1])?;
    check_found(&rt, t, Breakpoints, 10, &[2, 3, 1]);
    let t = tower::<SidedTray>(3, &[1, 130, 3])?;
    check_found(&rt, t, Breakpoints, 11, &[2, 1, 2]);
    let t = tower::<SidedTray>(5, &[1, 130, 132, 131, 133])?;
    check_found(&rt, t, Breakpoints, 969, &[2, 1, 4, 5, 3, 5, 3, 5]);
    Ok(())
}

#[test]
fn rings(rt: HostRuntime) -> Result<(), Fail> {
    check_found(&rt, ring(4, 2, &[2, 1, 3, 4])?, HalfGaps, 2, &[1]);
    check_found(&rt, ring(4, 2, &[2, 1, 4, 3])?, HalfGaps, 9, &[1, 3]);
    let r = ring(7, 4, &[6, 5, 4, 7, 2, 1, 3])?;
    check_found(&rt, r, HalfGaps, 309, &[1, 3, 1, 7, 4]);
    Ok(())
}
