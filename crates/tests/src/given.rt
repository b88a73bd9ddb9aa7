use estimate::{DualLookup, LookAhead};
use gaps::Gaps;
use machine::Fault;
use outcome::Estimates;
use ring::TrayRing;
use std::process::Abort;
use std::test::*;
use towers::{Tower, TowerTray};
use trays::{Settable, Setup};

// Dual lookup over look-ahead over gaps.
pub(crate) const LAYERED: DualLookup<LookAhead<Gaps>> = DualLookup {
    below: LookAhead { below: Gaps },
};

// These numbers as tray bytes, with 0 after the last.
fn tray_bytes<I: Iterator<Item = u8> + Drop>(numbers: I) -> [u8; 32]
    requires { I.can_next numbers }
{
    let mut bytes = [0u8; 32];
    for (byte, number) in bytes.iter_mut().zip(numbers) {
        *byte = number;
    }
    bytes
}

// What a machine is set from: n, a span and these numbers as tray bytes.
pub(crate) fn setup<S>(n: u8, span: S, numbers: &[u8]) -> Setup<S> {
    Setup {
        n,
        span,
        bytes: tray_bytes(numbers.iter().copied()),
    }
}

// 32 to 1.
pub(crate) fn falling() -> [u8; 32] {
    tray_bytes((1..=32).rev())
}

// A machine set from n, a span and these trays, or the refusal.
pub(crate) fn machine<M: Settable + Drop>(n: u8, span: M::Span, numbers: &[u8]) -> Result<M, Fault>
where
    M::Span: Drop,
{
    let mut machine = M::new();
    machine.set(&setup(n, span, numbers))?;
    Ok(machine)
}

// A tower of n of these trays, or the refusal.
pub(crate) fn tower<T: TowerTray + Drop>(n: u8, numbers: &[u8]) -> Result<Tower<T>, Fault> {
    machine(n, (), numbers)
}

// A ring of n trays with this span, or the refusal.
pub(crate) fn ring(n: u8, span: u8, numbers: &[u8]) -> Result<TrayRing, Fault> {
    machine(n, span, numbers)
}

// A machine of n trays in order, or the refusal.
pub(crate) fn home<M: Settable + Drop>(n: u8, span: M::Span) -> Result<M, Fault>
where
    M::Span: Drop,
{
    machine(n, span, &tray_bytes(1..=n))
}

// The estimates with these numbers.
pub(crate) fn estimates(count: u8, look_ahead: u8, dual_lookup: u8) -> Estimates {
    Estimates {
        count,
        look_ahead,
        dual_lookup,
    }
}

pub(crate) fn check_refused<M: Settable + Drop>(
    rt: &impl Abort,
    n: u8,
    span: M::Span,
    numbers: &[u8],
    fault: Fault,
) -> Result<(), Fail>
where
    M::Span: Drop,
{
    match machine::<M>(n, span, numbers) {
        Ok(_) => Err(Fail::new("accepted")),
        Err(f) => {
            assert_eq!(rt; f, fault);
            Ok(())
        }
    }
}
