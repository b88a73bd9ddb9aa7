use crate::given::setup;
use machine::{Dual, Ending, Machine, follow};
use ring::TrayRing;
use std::process::Abort;
use std::test::*;
use towers::{PlainTower, SidedTower, SidedTray};
use trays::Settable;

// The turns end so, and read backwards they end so on the dual.
fn check_backwards<M: Dual + Copy>(
    rt: &(impl Abort + AllocGlobal),
    machine: M,
    turns: &[u8],
    backwards: &[u8],
    ending: Ending,
) -> Result<(), Fail> {
    assert_eq!(rt; follow(rt.alloc(), machine, turns)?.ending, ending);
    assert_eq!(rt;
        follow(rt.alloc(), machine.dual(), backwards)?.ending,
        ending
    );
    Ok(())
}

#[test]
fn of_a_plain_tower(rt: HostRuntime) -> Result<(), Fail> {
    let mut t = PlainTower::new();
    t.set(&setup(3, (), &[2, 3, 1]))?;
    assert_eq!(rt; t.dual().trays(), [3, 1, 2].as_slice());
    assert_eq!(rt; t.dual().dual().trays(), [2, 3, 1].as_slice());
    check_backwards(&rt, t, &[3, 2], &[2, 3], Ending::NotHome)?;
    check_backwards(&rt, t, &[2, 3], &[3, 2], Ending::Home)
}

#[test]
fn of_a_sided_tower(rt: HostRuntime) -> Result<(), Fail> {
    let mut t = SidedTower::new();
    t.set(&setup(3, (), &[3, 129, 2]))?;
    let dual = t.dual();
    assert_eq!(rt;
        dual.trays(),
        [
            SidedTray {
                number: 2,
                away: true,
            },
            SidedTray {
                number: 3,
                away: false,
            },
            SidedTray {
                number: 1,
                away: false,
            },
        ]
        .as_slice()
    );
    assert_eq!(rt; dual.dual().trays(), t.trays());
    t.set(&setup(3, (), &[3, 1, 2]))?;
    check_backwards(&rt, t, &[1, 3, 2], &[2, 3, 1], Ending::Home)?;
    check_backwards(&rt, t, &[2, 3, 1], &[1, 3, 2], Ending::NotHome)
}

#[test]
fn of_a_ring(rt: HostRuntime) -> Result<(), Fail> {
    let mut r = TrayRing::new();
    r.set(&setup(5, 3, &[4, 1, 3, 2, 5]))?;
    assert_eq!(rt; r.dual().trays(), [2, 4, 3, 1, 5].as_slice());
    assert_eq!(rt; r.dual().span(), 3);
    assert_eq!(rt; r.dual().dual().trays(), [4, 1, 3, 2, 5].as_slice());
    check_backwards(&rt, r, &[2, 4], &[4, 2], Ending::Home)?;
    check_backwards(&rt, r, &[4, 2], &[2, 4], Ending::NotHome)
}
