use crate::given::{estimates, falling, home, ring, tower};
use estimate::{DualLookup, Estimate, LookAhead, SuccessorEstimate};
use gaps::{Breakpoints, Gaps, HalfGaps, count_breakpoints, count_gaps, count_ring_gaps};
use machine::{Dual, Machine};
use outcome::estimates_of;
use ring::TrayRing;
use std::process::Abort;
use std::test::*;
use towers::{PlainTower, SidedTower, SidedTray};

#[test]
fn gaps_of_plain_towers(rt: HostRuntime) -> Result<(), Fail> {
    assert_eq!(rt; count_gaps(&tower::<u8>(1, &[1])?), 0);
    assert_eq!(rt; count_gaps(&tower::<u8>(2, &[2, 1])?), 1);
    assert_eq!(rt; count_gaps(&tower::<u8>(3, &[1, 3, 2])?), 2);
    assert_eq!(rt; count_gaps(&tower::<u8>(32, &falling())?), 1);
    Ok(())
}

#[test]
fn breakpoints_of_sided_towers(rt: HostRuntime) -> Result<(), Fail> {
    assert_eq!(rt; count_breakpoints(&tower::<SidedTray>(1, &[129])?), 1);
    assert_eq!(rt; count_breakpoints(&tower::<SidedTray>(2, &[2, 1])?), 2);
    assert_eq!(rt; count_breakpoints(&tower::<SidedTray>(2, &[130, 129])?), 1);
    assert_eq!(rt; count_breakpoints(&tower::<SidedTray>(3, &[3, 129, 2])?), 3);
    Ok(())
}

#[test]
fn gaps_of_rings(rt: HostRuntime) -> Result<(), Fail> {
    let swapped = ring(4, 2, &[2, 1, 3, 4])?;
    assert_eq!(rt; count_ring_gaps(&swapped), 2);
    assert_eq!(rt; HalfGaps.ask(&swapped), 1);
    let apart = ring(5, 2, &[2, 1, 4, 3, 5])?;
    assert_eq!(rt; count_ring_gaps(&apart), 3);
    assert_eq!(rt; HalfGaps.ask(&apart), 2);
    let moved_on = ring(4, 2, &[2, 3, 4, 1])?;
    assert_eq!(rt; HalfGaps.ask(&moved_on), 0);
    assert!(rt; !moved_on.is_home());
    Ok(())
}

// A machine that is home needs no turns.
fn check_home<M: Dual + Copy, E: SuccessorEstimate<M> + Copy>(rt: &impl Abort, home: M, count: E) {
    assert_eq!(rt; estimates_of(&home, count), estimates(0, 0, 0));
}

#[test]
fn homes(rt: HostRuntime) -> Result<(), Fail> {
    for n in 1..=32 {
        check_home(&rt, home::<PlainTower>(n, ())?, Gaps);
        check_home(&rt, home::<SidedTower>(n, ())?, Breakpoints);
    }
    for n in 4..=32 {
        for span in [2, 3, n / 2, n] {
            check_home(&rt, home::<TrayRing>(n, span)?, HalfGaps);
        }
    }
    Ok(())
}

// The second sided tower is the dual of the first.
#[test]
fn one_turn_ahead(rt: HostRuntime) -> Result<(), Fail> {
    assert_eq!(rt;
        estimates_of(&tower::<u8>(3, &[1, 3, 2])?, Gaps),
        estimates(2, 3, 3)
    );
    assert_eq!(rt;
        estimates_of(&tower::<SidedTray>(3, &[3, 129, 2])?, Breakpoints),
        estimates(3, 4, 4)
    );
    assert_eq!(rt;
        estimates_of(&tower::<SidedTray>(3, &[130, 3, 1])?, Breakpoints),
        estimates(3, 3, 4)
    );
    assert_eq!(rt;
        estimates_of(&ring(4, 2, &[2, 3, 4, 1])?, HalfGaps),
        estimates(0, 2, 2)
    );
    Ok(())
}

#[test]
fn look_ahead_over_look_ahead(rt: HostRuntime) -> Result<(), Fail> {
    // look-ahead has 3, and the turns 2, 3, 2 bring it home
    let once = LookAhead { below: Gaps };
    let twice = LookAhead { below: once };
    assert_eq!(rt; twice.ask(&tower::<u8>(3, &[1, 3, 2])?), 3);
    // -1 -2 has 2 breakpoints, and so have 1 -2 and 2 1 after one turn, 2 -1 and -2 1 after two: each layer adds 1. No more than 4, since the turns 1, 2, 1, 2 bring it home.
    let once = LookAhead { below: Breakpoints };
    let twice = LookAhead { below: once };
    let thrice = LookAhead { below: twice };
    let t = tower::<SidedTray>(2, &[129, 130])?;
    assert_eq!(rt; once.ask(&t), 3);
    assert_eq!(rt; twice.ask(&t), 4);
    assert_eq!(rt; thrice.ask(&t), 4);
    Ok(())
}

#[test]
fn dual_lookup_over_dual_lookup(rt: HostRuntime) -> Result<(), Fail> {
    // look-ahead has 3 here and 4 on the dual, 3 -1 2, whose dual is this tower again
    let once = DualLookup {
        below: LookAhead { below: Breakpoints },
    };
    let twice = DualLookup { below: once };
    assert_eq!(rt; twice.ask(&tower::<SidedTray>(3, &[130, 3, 1])?), 4);
    Ok(())
}

#[test]
fn look_ahead_over_dual_lookup(rt: HostRuntime) -> Result<(), Fail> {
    // Look-ahead has 4 on 3 2 1, and on -2 -3 1 and -1 -2 -3 after turns 2 and 3: all have 3 breakpoints, as have the states after one turn more. It has 3 on -3 2 1 after turn 1, since a turn 3 leads on to -1 -2 3 with 2 breakpoints; but 4 on the dual of that, 3 2 -1.
    let look_ahead = LookAhead { below: Breakpoints };
    let dual_lookup = DualLookup { below: look_ahead };
    let t = tower::<SidedTray>(3, &[3, 2, 1])?;
    assert_eq!(rt; LookAhead { below: look_ahead }.ask(&t), 4);
    assert_eq!(rt; LookAhead { below: dual_lookup }.ask(&t), 5);
    Ok(())
}
