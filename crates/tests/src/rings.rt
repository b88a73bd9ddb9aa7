use crate::given::{check_refused, ring, setup};
use machine::{Fault, Machine, TurnRange};
use ring::TrayRing;
use std::process::Abort;
use std::test::*;
use trays::Settable;

// The trays after turn p.
fn check_turn(rt: &impl Abort, span: u8, p: u8, before: &[u8], after: &[u8]) -> Result<(), Fail> {
    let mut r = ring(before.len().min(32) as u8, span, before)?;
    r.turn(p)?;
    assert_eq!(rt; r.trays(), after);
    Ok(())
}

#[test]
fn four_trays(rt: HostRuntime) -> Result<(), Fail> {
    let r = TrayRing::new();
    assert_eq!(rt; r.trays(), [1, 2, 3, 4].as_slice());
    assert_eq!(rt; r.span(), 2);
    assert!(rt; r.is_home());
    assert_eq!(rt;
        r.range(),
        TurnRange {
            lowest: 1,
            highest: 4,
        }
    );
    Ok(())
}

#[test]
fn home_after_one_turn(rt: HostRuntime) -> Result<(), Fail> {
    let mut r = ring(4, 2, &[2, 1, 3, 4])?;
    assert!(rt; !r.is_home());
    r.turn(1)?;
    assert!(rt; r.is_home());
    Ok(())
}

#[test]
fn in_order_but_not_from_place_1(rt: HostRuntime) -> Result<(), Fail> {
    assert!(rt; !ring(4, 2, &[2, 3, 4, 1])?.is_home());
    Ok(())
}

#[test]
fn runs_before_the_seam(rt: HostRuntime) -> Result<(), Fail> {
    check_turn(&rt, 2, 3, &[1, 2, 3, 4], &[1, 2, 4, 3])?;
    check_turn(&rt, 3, 2, &[1, 2, 3, 4, 5], &[1, 4, 3, 2, 5])?;
    check_turn(&rt, 4, 1, &[3, 1, 4, 2], &[2, 4, 1, 3])
}

#[test]
fn runs_across_the_seam(rt: HostRuntime) -> Result<(), Fail> {
    check_turn(&rt, 2, 4, &[1, 2, 3, 4], &[4, 2, 3, 1])?;
    check_turn(&rt, 4, 3, &[1, 2, 3, 4], &[4, 3, 2, 1])?;
    check_turn(&rt, 4, 2, &[1, 2, 3, 4], &[2, 1, 4, 3])?;
    check_turn(&rt, 3, 3, &[3, 1, 4, 2], &[4, 1, 3, 2])?;
    check_turn(&rt, 3, 4, &[1, 2, 3, 4, 5], &[4, 2, 3, 1, 5])?;
    check_turn(&rt, 3, 5, &[1, 2, 3, 4, 5], &[1, 5, 3, 4, 2])?;
    check_turn(&rt, 4, 5, &[1, 2, 3, 4, 5, 6], &[6, 5, 3, 4, 2, 1])?;
    check_turn(&rt, 5, 4, &[1, 2, 3, 4, 5, 6, 7], &[4, 2, 3, 1, 7, 6, 5])
}

#[test]
fn limits(rt: HostRuntime) -> Result<(), Fail> {
    assert!(rt; ring(4, 2, &[1, 2, 3, 4]).is_ok());
    assert!(rt; ring(4, 4, &[1, 2, 3, 4]).is_ok());
    check_refused::<TrayRing>(&rt, 3, 2, &[1, 2, 3], Fault::TrayCount)?;
    check_refused::<TrayRing>(&rt, 33, 2, &[1, 2, 3], Fault::TrayCount)?;
    check_refused::<TrayRing>(&rt, 4, 1, &[1, 2, 3, 4], Fault::Span)?;
    check_refused::<TrayRing>(&rt, 4, 5, &[1, 2, 3, 4], Fault::Span)?;
    check_refused::<TrayRing>(&rt, 4, 0, &[1, 2, 3, 4], Fault::Span)
}

#[test]
fn the_earlier_number_wins(rt: HostRuntime) -> Result<(), Fail> {
    check_refused::<TrayRing>(&rt, 3, 9, &[1, 2, 3], Fault::TrayCount)?;
    check_refused::<TrayRing>(&rt, 4, 5, &[1, 2, 3, 5], Fault::Span)?;
    check_refused::<TrayRing>(&rt, 4, 2, &[1, 1, 3, 5], Fault::TrayNumber(3))?;
    check_refused::<TrayRing>(&rt, 4, 2, &[1, 1, 3, 4, 9], Fault::TrayRepeated(1))?;
    check_refused::<TrayRing>(&rt, 4, 2, &[1, 2, 3, 4, 9], Fault::TrayBeyond(4))?;
    check_refused::<TrayRing>(&rt, 4, 2, &[129, 2, 3, 4], Fault::TrayNumber(0))
}

#[test]
fn a_refusal_changes_nothing(rt: HostRuntime) -> Result<(), Fail> {
    let mut r = ring(5, 3, &[4, 1, 3, 2, 5])?;
    assert_eq!(rt; r.set(&setup(4, 5, &[1, 2, 3, 4])), Err(Fault::Span));
    assert_eq!(rt; r.turn(0), Err(Fault::NoSuchTurn));
    assert_eq!(rt; r.turn(6), Err(Fault::NoSuchTurn));
    assert_eq!(rt; r.trays(), [4, 1, 3, 2, 5].as_slice());
    assert_eq!(rt; r.span(), 3);
    Ok(())
}

#[test]
fn constants_of_the_kind(rt: HostRuntime) -> Result<(), Fail> {
    assert_eq!(rt; <TrayRing as Machine>::LETTER, b'R');
    assert_eq!(rt; <TrayRing as Machine>::LEAST, 4);
    Ok(())
}
