use crate::given::home;
use estimate::{DualLookup, Estimate, LookAhead, SuccessorEstimate};
use gaps::{Breakpoints, Gaps, HalfGaps};
use machine::{Dual, TurnRange};
use ring::TrayRing;
use std::process::Abort;
use std::test::*;
use towers::{PlainTower, SidedTower};

// This many turns lead here from home, so as many lead back, and no estimate is above their number.
fn check_most<M: Dual + Copy, E: SuccessorEstimate<M> + Copy>(
    rt: &impl Abort,
    machine: &M,
    count: E,
    made: u8,
) {
    let look_ahead = LookAhead { below: count };
    let dual_lookup = DualLookup { below: look_ahead };
    let further = LookAhead { below: dual_lookup };
    let estimates = [
        count.ask(machine),
        look_ahead.ask(machine),
        dual_lookup.ask(machine),
        further.ask(machine),
    ];
    for number in estimates {
        assert!(rt; number <= made, "{estimates:?} after {made} turns");
    }
}

// Makes each list of up to `most` turns from home, and checks the estimates after each turn.
fn sweep<M: Dual + Copy, E: SuccessorEstimate<M> + Copy>(
    rt: &(impl Abort + AllocGlobal),
    home: M,
    count: E,
    most: u8,
) -> Result<(), Fail> {
    check_most(rt, &home, count, 0);
    let mut states = Vec::new(rt.alloc());
    states.push(home)?;
    for made in 1..=most {
        let mut after = Vec::new(rt.alloc());
        for state in &states {
            let TurnRange { lowest, highest } = state.range();
            for k in lowest..=highest {
                let mut turned = *state;
                turned.turn(k)?;
                check_most(rt, &turned, count, made);
                after.push(turned)?;
            }
        }
        states = after;
    }
    Ok(())
}

// Five turns lead to every plain tower of up to 5 trays.
#[test]
fn plain_towers(rt: HostRuntime) -> Result<(), Fail> {
    for n in 1..=5 {
        sweep(&rt, home::<PlainTower>(n, ())?, Gaps, 5)?;
    }
    Ok(())
}

// Eight turns lead to every sided tower of 4 trays.
#[test]
fn sided_towers(rt: HostRuntime) -> Result<(), Fail> {
    sweep(&rt, home::<SidedTower>(4, ())?, Breakpoints, 8)
}

// Six turns lead to every ring of 5 trays that any turns lead to.
#[test]
fn rings(rt: HostRuntime) -> Result<(), Fail> {
    for span in 2..=5 {
        sweep(&rt, home::<TrayRing>(5, span)?, HalfGaps, 6)?;
    }
    Ok(())
}
