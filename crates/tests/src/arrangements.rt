use crate::given::setup;
use machine::Fault;
use std::test::*;
use trays::{Arrangement, Setup};

// The arrangement of n bytes, or the refusal.
fn arrangement(
    least: u8,
    n: u8,
    span: Option<u8>,
    numbers: &[u8],
) -> Result<Arrangement<u8>, Fault> {
    Arrangement::from_setup(least, &setup(n, span, numbers))
}

#[test]
fn homes(rt: HostRuntime) -> Result<(), Fail> {
    assert_eq!(rt; Arrangement::<u8>::home(3).trays(), [1, 2, 3].as_slice());
    assert_eq!(rt; Arrangement::<u8>::home(0).trays(), [1].as_slice());
    assert_eq!(rt; Arrangement::<u8>::home(255).trays().len(), 32);
    assert!(rt; Arrangement::<u8>::home(255).is_home());
    Ok(())
}

#[test]
fn any_least_number(rt: HostRuntime) -> Result<(), Fail> {
    assert_eq!(rt; arrangement(0, 1, None, &[1])?.trays(), [1].as_slice());
    assert_eq!(rt;
        arrangement(3, 3, None, &[3, 1, 2])?.trays(),
        [3, 1, 2].as_slice()
    );
    assert!(rt; !arrangement(3, 3, None, &[3, 1, 2])?.is_home());
    assert!(rt; matches!(arrangement(0, 0, None, &[]), Err(Fault::TrayCount)));
    assert!(rt; matches!(arrangement(4, 3, None, &[3, 1, 2]), Err(Fault::TrayCount)));
    assert!(rt; matches!(arrangement(255, 32, None, &[]), Err(Fault::TrayCount)));
    assert!(rt; matches!(arrangement(1, 3, Some(4), &[3, 1, 2]), Err(Fault::Span)));
    Ok(())
}

#[test]
fn set_in_place(rt: HostRuntime) -> Result<(), Fail> {
    let mut a = Arrangement::<u8>::home(2);
    a.set(3, None, &setup(3, (), &[2, 3, 1]))?;
    assert_eq!(rt; a.trays(), [2, 3, 1].as_slice());
    let repeated = setup(4, (), &[4, 1, 4, 2]);
    assert_eq!(rt; a.set(1, None, &repeated), Err(Fault::TrayRepeated(2)));
    assert_eq!(rt;
        a.set(1, Some(5), &setup(4, (), &[4, 3, 2, 1])),
        Err(Fault::Span)
    );
    assert_eq!(rt;
        a.set(5, None, &setup(4, (), &[4, 3, 2, 1])),
        Err(Fault::TrayCount)
    );
    assert_eq!(rt; a.trays(), [2, 3, 1].as_slice());
    // The span that the setup has is not looked at.
    a.set(0, Some(2), &setup(2, 9u8, &[2, 1]))?;
    assert_eq!(rt; a.trays(), [2, 1].as_slice());
    Ok(())
}

#[test]
fn copies_and_inverses(rt: HostRuntime) -> Result<(), Fail> {
    let a = arrangement(1, 3, None, &[2, 3, 1])?;
    assert_eq!(rt; a.clone()?.trays(), [2, 3, 1].as_slice());
    assert_eq!(rt; a.inverted().trays(), [3, 1, 2].as_slice());
    Ok(())
}

#[test]
fn spans_of_setups(rt: HostRuntime) -> Result<(), Fail> {
    let towers = setup(2, (), &[2, 1]);
    let rings = towers.with_span(5u8);
    let Setup { n, span, bytes } = rings;
    assert_eq!(rt; n, 2);
    assert_eq!(rt; span, 5);
    assert_eq!(rt; bytes, towers.bytes);
    Ok(())
}
