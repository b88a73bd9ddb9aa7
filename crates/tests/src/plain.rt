use crate::given::{check_refused, falling, setup, tower};
use machine::{Ending, Fault, Machine, TurnRange, follow};
use std::test::*;
use towers::PlainTower;
use trays::Settable;

#[test]
fn one_tray(rt: HostRuntime) -> Result<(), Fail> {
    let mut t = PlainTower::new();
    assert_eq!(rt; t.trays(), [1].as_slice());
    assert!(rt; t.is_home());
    assert_eq!(rt;
        t.range(),
        TurnRange {
            lowest: 2,
            highest: 1,
        }
    );
    assert_eq!(rt; t.turn(1), Err(Fault::NoSuchTurn));
    assert_eq!(rt; t.turn(2), Err(Fault::NoSuchTurn));
    assert_eq!(rt; tower::<u8>(1, &[1])?.trays(), [1].as_slice());
    Ok(())
}

#[test]
fn two_trays(rt: HostRuntime) -> Result<(), Fail> {
    let mut t = tower::<u8>(2, &[2, 1])?;
    assert!(rt; !t.is_home());
    assert_eq!(rt;
        t.range(),
        TurnRange {
            lowest: 2,
            highest: 2,
        }
    );
    t.turn(2)?;
    assert_eq!(rt; t.trays(), [1, 2].as_slice());
    assert!(rt; t.is_home());
    Ok(())
}

#[test]
fn three_trays(rt: HostRuntime) -> Result<(), Fail> {
    let mut t = tower::<u8>(3, &[1, 3, 2])?;
    t.turn(2)?;
    assert_eq!(rt; t.trays(), [3, 1, 2].as_slice());
    t.turn(3)?;
    assert_eq!(rt; t.trays(), [2, 1, 3].as_slice());
    assert!(rt; !t.is_home());
    t.turn(2)?;
    assert_eq!(rt; t.trays(), [1, 2, 3].as_slice());
    assert!(rt; t.is_home());
    Ok(())
}

#[test]
fn tray_counts(rt: HostRuntime) -> Result<(), Fail> {
    let numbers = falling();
    let mut t = tower::<u8>(32, &numbers)?;
    assert!(rt; !t.is_home());
    t.turn(32)?;
    assert!(rt; t.is_home());
    check_refused::<PlainTower>(&rt, 0, (), &[], Fault::TrayCount)?;
    check_refused::<PlainTower>(&rt, 33, (), &numbers, Fault::TrayCount)?;
    check_refused::<PlainTower>(&rt, 255, (), &numbers, Fault::TrayCount)
}

#[test]
fn refusals(rt: HostRuntime) -> Result<(), Fail> {
    check_refused::<PlainTower>(&rt, 3, (), &[1, 0, 2], Fault::TrayNumber(1))?;
    check_refused::<PlainTower>(&rt, 3, (), &[4, 1, 2], Fault::TrayNumber(0))?;
    check_refused::<PlainTower>(&rt, 3, (), &[1, 255, 0], Fault::TrayNumber(1))?;
    check_refused::<PlainTower>(&rt, 3, (), &[3, 1, 3], Fault::TrayRepeated(2))?;
    check_refused::<PlainTower>(&rt, 4, (), &[2, 2, 1, 1], Fault::TrayRepeated(1))?;
    check_refused::<PlainTower>(&rt, 2, (), &[2, 1, 3], Fault::TrayBeyond(2))?;
    check_refused::<PlainTower>(&rt, 1, (), &[1, 0, 0, 9, 9], Fault::TrayBeyond(3))
}

#[test]
fn the_earlier_number_wins(rt: HostRuntime) -> Result<(), Fail> {
    check_refused::<PlainTower>(&rt, 0, (), &[7, 7], Fault::TrayCount)?;
    check_refused::<PlainTower>(&rt, 3, (), &[1, 1, 9], Fault::TrayNumber(2))?;
    check_refused::<PlainTower>(&rt, 3, (), &[1, 1, 2, 9], Fault::TrayRepeated(1))?;
    check_refused::<PlainTower>(&rt, 2, (), &[1, 3, 9], Fault::TrayNumber(1))
}

#[test]
fn a_refusal_changes_nothing(rt: HostRuntime) -> Result<(), Fail> {
    let mut t = tower::<u8>(3, &[2, 3, 1])?;
    assert_eq!(rt; t.set(&setup(0, (), &[1])), Err(Fault::TrayCount));
    assert_eq!(rt; t.set(&setup(2, (), &[1, 3])), Err(Fault::TrayNumber(1)));
    assert_eq!(rt; t.set(&setup(2, (), &[1, 1])), Err(Fault::TrayRepeated(1)));
    assert_eq!(rt; t.set(&setup(2, (), &[1, 2, 3])), Err(Fault::TrayBeyond(2)));
    assert_eq!(rt; t.turn(1), Err(Fault::NoSuchTurn));
    assert_eq!(rt; t.turn(4), Err(Fault::NoSuchTurn));
    assert_eq!(rt; t.turn(255), Err(Fault::NoSuchTurn));
    assert_eq!(rt; t.trays(), [2, 3, 1].as_slice());
    Ok(())
}

#[test]
fn numbers_of_faults(rt: HostRuntime) -> Result<(), Fail> {
    assert_eq!(rt; Fault::TrayCount.number(), 6);
    assert_eq!(rt; Fault::Span.number(), 7);
    assert_eq!(rt; Fault::TrayNumber(4).number(), 8);
    assert_eq!(rt; Fault::TrayRepeated(4).number(), 9);
    assert_eq!(rt; Fault::TrayBeyond(4).number(), 10);
    assert_eq!(rt; Fault::NoSuchTurn.number(), 11);
    assert_eq!(rt; Fault::TrayBeyond(4).index(), Some(4));
    assert_eq!(rt; Fault::Span.index(), None);
    assert_eq!(rt; Fault::TrayCount.index(), None);
    Ok(())
}

#[test]
fn constants_of_the_kind(rt: HostRuntime) -> Result<(), Fail> {
    assert_eq!(rt; <PlainTower as Machine>::LETTER, b'P');
    assert_eq!(rt; <PlainTower as Machine>::LEAST, 1);
    Ok(())
}

#[test]
fn turns_followed(rt: HostRuntime) -> Result<(), Fail> {
    let t = tower::<u8>(3, &[1, 3, 2])?;
    let home = follow(rt.alloc(), t, &[2, 3, 2])?;
    assert_eq!(rt; home.ending, Ending::Home);
    assert_eq!(rt; home.states.len(), 3);
    let away = follow(rt.alloc(), t, &[2, 3])?;
    assert_eq!(rt; away.ending, Ending::NotHome);
    let refused = follow(rt.alloc(), t, &[2, 4, 2])?;
    assert_eq!(rt; refused.ending, Ending::Refused(Fault::NoSuchTurn));
    assert_eq!(rt; refused.states.len(), 1);
    Ok(())
}

// However long the list is, all its turns are made.
#[test]
fn long_list_followed(rt: HostRuntime) -> Result<(), Fail> {
    let t = tower::<u8>(2, &[2, 1])?;
    let trace = follow(rt.alloc(), t, &[2; 1001])?;
    assert_eq!(rt; trace.ending, Ending::Home);
    assert_eq!(rt; trace.states.len(), 1001);
    Ok(())
}

// However long the list is, room is asked for as many turns as are made.
#[test]
fn room_for_turns_made(rt: HostRuntime) -> Result<(), Fail> {
    let t = tower::<u8>(2, &[2, 1])?;
    let mut turns = [2; 1001];
    turns[3] = 3;
    let trace = follow(rt.alloc(), t, &turns)?;
    assert_eq!(rt; trace.ending, Ending::Refused(Fault::NoSuchTurn));
    assert_eq!(rt; trace.states.len(), 3);
    assert!(rt; trace.states.capacity() < 1000);
    turns[0] = 1;
    let refused = follow(rt.alloc(), t, &turns)?;
    assert_eq!(rt; refused.states.capacity(), 0);
    Ok(())
}
