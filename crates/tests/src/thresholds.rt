use crate::given::{LAYERED, home, ring, tower};
use estimate::Estimate;
use gaps::{Breakpoints, Gaps, HalfGaps};
use machine::Machine;
use ring::TrayRing;
use search::first_threshold;
use std::process::Abort;
use std::test::*;
use towers::{PlainTower, SidedTray};
use worked::worked_looks;

// A machine with this estimate begins its search with this threshold, where the limit allows that.
fn check_first<M: Machine, E: Estimate<M>>(
    rt: &impl Abort,
    machine: &M,
    estimate: &E,
    threshold: u8,
) {
    for limit in 0..=255 {
        let first = first_threshold(machine, estimate, limit);
        if limit < threshold {
            assert_eq!(rt; first, None);
        } else {
            assert_eq!(rt; first, Some(threshold));
        }
    }
}

#[test]
fn within_each_limit(rt: HostRuntime) -> Result<(), Fail> {
    let t = tower::<u8>(3, &[1, 3, 2])?;
    check_first(&rt, &t, &Gaps, 2);
    check_first(&rt, &t, &LAYERED, 3);
    check_first(&rt, &home::<PlainTower>(32, ())?, &LAYERED, 0);
    check_first(&rt, &tower::<SidedTray>(3, &[3, 129, 2])?, &Breakpoints, 3);
    check_first(&rt, &ring(4, 2, &[2, 1, 3, 4])?, &HalfGaps, 1);
    check_first(&rt, &home::<TrayRing>(32, 32)?, &HalfGaps, 0);
    Ok(())
}

// Plain 1, 2 1 twice, 1 3 2 four times and 1 2 4 3; sided -1, -1 -2, 2 3 1 and 1 -2 3; the rings 2 1 3 4 and 2 1 4 3.
#[test]
fn looks_of_worked_searches(rt: HostRuntime) {
    assert_eq!(rt;
        worked_looks(),
        [1, 2, 1, 7, 4, 3, 1, 13, 2, 13, 10, 11, 2, 9]
    );
}
