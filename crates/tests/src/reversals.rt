use reversal::reverse_part;
use std::test::*;
use towers::SidedTray;

#[test]
fn a_part(rt: HostRuntime) -> Result<(), Fail> {
    let mut numbers = [1u8, 2, 3, 4, 5];
    reverse_part(&mut numbers, 1, 4);
    assert_eq!(rt; numbers, [1, 4, 3, 2, 5]);
    reverse_part(&mut numbers, 0, 5);
    assert_eq!(rt; numbers, [5, 2, 3, 4, 1]);
    Ok(())
}

#[test]
fn any_bounds(rt: HostRuntime) -> Result<(), Fail> {
    let mut numbers = [1u8, 2, 3];
    reverse_part(&mut numbers, 2, 2);
    reverse_part(&mut numbers, 3, 1);
    reverse_part(&mut numbers, 3, 9);
    reverse_part(&mut numbers, 7, usize::MAX);
    assert_eq!(rt; numbers, [1, 2, 3]);
    reverse_part(&mut numbers, 1, usize::MAX);
    assert_eq!(rt; numbers, [1, 3, 2]);
    Ok(())
}

#[test]
fn records(rt: HostRuntime) -> Result<(), Fail> {
    let a = SidedTray {
        number: 1,
        away: false,
    };
    let b = SidedTray {
        number: 2,
        away: true,
    };
    let mut trays = [a, b];
    reverse_part(&mut trays, 0, 2);
    assert_eq!(rt; trays, [b, a]);
    Ok(())
}
