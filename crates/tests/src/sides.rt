use crate::given::{check_refused, setup, tower};
use machine::{Fault, Machine, TurnRange};
use std::test::*;
use towers::{SidedTower, SidedTray};
use trays::{Settable, Tray};

fn door_here(number: u8) -> SidedTray {
    SidedTray {
        number,
        away: false,
    }
}

fn door_away(number: u8) -> SidedTray {
    SidedTray { number, away: true }
}

#[test]
fn bytes_of_trays(rt: HostRuntime) -> Result<(), Fail> {
    assert_eq!(rt; SidedTray::from_byte(3), door_here(3));
    assert_eq!(rt; SidedTray::from_byte(129), door_away(1));
    assert_eq!(rt; SidedTray::from_byte(127), door_here(127));
    assert_eq!(rt; SidedTray::from_byte(128), door_away(0));
    assert_eq!(rt; SidedTray::from_byte(255), door_away(127));
    Ok(())
}

#[test]
fn one_tray(rt: HostRuntime) -> Result<(), Fail> {
    let mut t = SidedTower::new();
    assert_eq!(rt; t.trays(), [door_here(1)].as_slice());
    assert!(rt; t.is_home());
    t.turn(1)?;
    assert_eq!(rt; t.trays(), [door_away(1)].as_slice());
    assert!(rt; !t.is_home());
    let mut t = tower::<SidedTray>(1, &[129])?;
    assert!(rt; !t.is_home());
    t.turn(1)?;
    assert!(rt; t.is_home());
    Ok(())
}

#[test]
fn three_trays(rt: HostRuntime) -> Result<(), Fail> {
    let mut t = tower::<SidedTray>(3, &[3, 129, 2])?;
    assert_eq!(rt;
        t.range(),
        TurnRange {
            lowest: 1,
            highest: 3,
        }
    );
    t.turn(2)?;
    assert_eq!(rt;
        t.trays(),
        [door_here(1), door_away(3), door_here(2)].as_slice()
    );
    t.turn(3)?;
    assert_eq!(rt;
        t.trays(),
        [door_away(2), door_here(3), door_away(1)].as_slice()
    );
    assert_eq!(rt; t.turn(0), Err(Fault::NoSuchTurn));
    assert_eq!(rt; t.turn(4), Err(Fault::NoSuchTurn));
    assert_eq!(rt;
        t.trays(),
        [door_away(2), door_here(3), door_away(1)].as_slice()
    );
    Ok(())
}

#[test]
fn numbers_in_order_with_a_door_away(rt: HostRuntime) -> Result<(), Fail> {
    assert!(rt; tower::<SidedTray>(3, &[1, 2, 3])?.is_home());
    assert!(rt; !tower::<SidedTray>(3, &[1, 130, 3])?.is_home());
    Ok(())
}

#[test]
fn refusals(rt: HostRuntime) -> Result<(), Fail> {
    check_refused::<SidedTower>(&rt, 0, (), &[], Fault::TrayCount)?;
    check_refused::<SidedTower>(&rt, 33, (), &[1], Fault::TrayCount)?;
    check_refused::<SidedTower>(&rt, 1, (), &[128], Fault::TrayNumber(0))?;
    check_refused::<SidedTower>(&rt, 2, (), &[1, 131], Fault::TrayNumber(1))?;
    check_refused::<SidedTower>(&rt, 2, (), &[1, 129], Fault::TrayRepeated(1))?;
    check_refused::<SidedTower>(&rt, 1, (), &[1, 130], Fault::TrayBeyond(1))?;
    check_refused::<SidedTower>(&rt, 1, (), &[129, 0, 128], Fault::TrayBeyond(2))?;
    check_refused::<SidedTower>(&rt, 3, (), &[1, 129, 4], Fault::TrayNumber(2))
}

#[test]
fn a_refusal_changes_nothing(rt: HostRuntime) -> Result<(), Fail> {
    let mut t = tower::<SidedTray>(2, &[130, 1])?;
    assert_eq!(rt; t.set(&setup(0, (), &[1])), Err(Fault::TrayCount));
    assert_eq!(rt; t.set(&setup(2, (), &[128, 1])), Err(Fault::TrayNumber(0)));
    assert_eq!(rt; t.trays(), [door_away(2), door_here(1)].as_slice());
    Ok(())
}

#[test]
fn constants_of_the_kind(rt: HostRuntime) -> Result<(), Fail> {
    assert_eq!(rt; <SidedTower as Machine>::LETTER, b'S');
    assert_eq!(rt; <SidedTower as Machine>::LEAST, 1);
    Ok(())
}
