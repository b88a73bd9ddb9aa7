use crate::given::{estimates, home};
use gaps::Gaps;
use machine::{Ending, Fault, Machine};
use outcome::{Done, Estimates, Failure, Outcome, Planned, perform, plan_within};
use std::process::Abort;
use std::test::*;
use text::{Action, Expected, Misread, Request, Word, read_words};
use towers::PlainTower;
use trays::{Kind, Settable};

fn request(rt: &impl AllocGlobal, line: &str) -> Result<Request, Misread> {
    Request::parse(rt.alloc(), &read_words(rt.alloc(), line)?)
}

fn check_misread(
    rt: &(impl Abort + AllocGlobal),
    line: &str,
    at: usize,
    expected: Expected,
) -> Result<(), Fail> {
    match request(rt, line) {
        Ok(_) => Err(Fail::new("understood")),
        Err(m) => {
            assert_eq!(rt; m, Misread::Unexpected { at, expected });
            Ok(())
        }
    }
}

#[test]
fn words(rt: HostRuntime) -> Result<(), Fail> {
    assert_eq!(rt; Word::from("plain"), Word::Kind(Kind::Plain));
    assert_eq!(rt; Word::from("sided"), Word::Kind(Kind::Sided));
    assert_eq!(rt; Word::from("ring"), Word::Kind(Kind::Ring));
    assert_eq!(rt; Word::from("count"), Word::Count);
    assert_eq!(rt; Word::from("span"), Word::Span);
    assert_eq!(rt; Word::from("turns"), Word::Turns);
    assert_eq!(rt; Word::from("dual"), Word::Dual);
    assert_eq!(rt; Word::from("estimate"), Word::Estimate);
    assert_eq!(rt; Word::from("looks"), Word::Looks);
    assert_eq!(rt; Word::from("Plain"), Word::Other);
    Ok(())
}

#[test]
fn numbers(rt: HostRuntime) -> Result<(), Fail> {
    assert_eq!(rt; Word::from("255"), Word::Number(255));
    assert_eq!(rt; Word::from("+1"), Word::Number(1));
    assert_eq!(rt; Word::from("256"), Word::Large(256));
    assert_eq!(rt; Word::from("+4294967295"), Word::Large(4_294_967_295));
    assert_eq!(rt; Word::from("4294967296"), Word::Other);
    assert_eq!(rt; Word::from("-1"), Word::Away(1));
    assert_eq!(rt; Word::from("-0"), Word::Away(0));
    assert_eq!(rt; Word::from("-127"), Word::Away(127));
    assert_eq!(rt; Word::from("-128"), Word::Other);
    assert_eq!(rt; Word::from("-+1"), Word::Other);
    assert_eq!(rt; Word::from("--1"), Word::Other);
    assert_eq!(rt; Word::from("-"), Word::Other);
    Ok(())
}

fn check_turns(rt: &impl Abort, q: &Request, turns: &[u8]) -> Result<(), Fail> {
    match &q.action {
        Action::Turns(asked) => {
            assert_eq!(rt; asked.as_slice(), turns);
            Ok(())
        }
        Action::Dual => Err(Fail::new("the dual")),
        Action::Estimate => Err(Fail::new("an estimate")),
        Action::Plan { .. } => Err(Fail::new("a plan")),
    }
}

#[test]
fn requests(rt: HostRuntime) -> Result<(), Fail> {
    let q = request(&rt, "plain 1 3 2 turns 2 3 2")?;
    assert_eq!(rt; q.kind, Kind::Plain);
    assert_eq!(rt; q.trays.as_slice(), [1, 3, 2].as_slice());
    check_turns(&rt, &q, &[2, 3, 2])?;
    assert_eq!(rt; q.tray_count(), 3);
    let q = request(&rt, "  plain\t1 2 7 count 2 turns")?;
    assert_eq!(rt; q.tray_count(), 2);
    check_turns(&rt, &q, &[])?;
    let bytes = q.tray_bytes();
    assert_eq!(rt; bytes[2], 7);
    assert_eq!(rt; bytes[3], 0);
    Ok(())
}

#[test]
fn sided_and_ring_requests(rt: HostRuntime) -> Result<(), Fail> {
    let q = request(&rt, "sided -1 2 -0 255 dual")?;
    assert_eq!(rt; q.kind, Kind::Sided);
    assert_eq!(rt; q.trays.as_slice(), [129, 2, 128, 255].as_slice());
    assert_eq!(rt; q.span, None);
    assert!(rt; matches!(q.action, Action::Dual));
    let q = request(&rt, "ring 1 2 3 count 3 span 2 turns 0 1")?;
    assert_eq!(rt; q.kind, Kind::Ring);
    assert_eq!(rt; q.count, Some(3));
    assert_eq!(rt; q.span, Some(2));
    check_turns(&rt, &q, &[0, 1])?;
    let q = request(&rt, "ring span 4 dual")?;
    assert_eq!(rt; q.tray_count(), 0);
    assert_eq!(rt; q.span, Some(4));
    Ok(())
}

#[test]
fn estimate_requests(rt: HostRuntime) -> Result<(), Fail> {
    let q = request(&rt, "plain 2 3 1 estimate")?;
    assert_eq!(rt; q.trays.as_slice(), [2, 3, 1].as_slice());
    assert!(rt; matches!(q.action, Action::Estimate));
    let q = request(&rt, "sided -1 2 count 2 estimate")?;
    assert_eq!(rt; q.count, Some(2));
    assert!(rt; matches!(q.action, Action::Estimate));
    let q = request(&rt, "ring 1 2 3 4 span 3 estimate")?;
    assert_eq!(rt; q.span, Some(3));
    assert!(rt; matches!(q.action, Action::Estimate));
    Ok(())
}

fn check_plan(
    rt: &(impl Abort + AllocGlobal),
    line: &str,
    limit: u8,
    looks: u32,
) -> Result<(), Fail> {
    let q = request(rt, line)?;
    let Action::Plan {
        limit: limit_read,
        looks: looks_read,
    } = q.action
    else {
        return Err(Fail::new("no plan"));
    };
    assert_eq!(rt; limit_read, limit);
    assert_eq!(rt; looks_read, looks);
    Ok(())
}

#[test]
fn plan_requests(rt: HostRuntime) -> Result<(), Fail> {
    check_plan(&rt, "plain 1 plan", 64, 2_000_000_000)?;
    check_plan(&rt, "plain 1 plan limit 0", 0, 2_000_000_000)?;
    check_plan(&rt, "plain 1 plan looks 1", 64, 1)?;
    check_plan(&rt, "sided -1 plan limit 5 looks 255", 5, 255)?;
    check_plan(&rt, "ring span 2 plan limit 255 looks 256", 255, 256)?;
    check_plan(&rt, "plain 1 plan looks +2000000000", 64, 2_000_000_000)
}

#[test]
fn misread_plans(rt: HostRuntime) -> Result<(), Fail> {
    check_misread(&rt, "plain 1 plan 5", 3, Expected::LimitWord)?;
    check_misread(&rt, "plain 1 plan limit 256", 4, Expected::LimitNumber)?;
    check_misread(&rt, "plain 1 plan limit 5 5", 5, Expected::LooksWord)?;
    check_misread(&rt, "plain 1 plan limit 5 limit 5", 5, Expected::LooksWord)?;
    check_misread(&rt, "plain 1 plan looks 5 limit 5", 5, Expected::End)?;
    check_misread(&rt, "plain 1 looks 5", 2, Expected::Tray)?;
    check_misread(&rt, "plain 256 plan", 1, Expected::Tray)?;
    check_misread(&rt, "plain 1 plan looks", 4, Expected::LooksNumber)?;
    for number in ["0", "2000000001", "4294967296", "-1", "five"] {
        let line = format!(in rt.alloc(); "plain 1 plan looks {number}")?;
        check_misread(&rt, &line, 4, Expected::LooksNumber)?;
    }
    Ok(())
}

#[test]
fn misreads(rt: HostRuntime) -> Result<(), Fail> {
    check_misread(&rt, "", 0, Expected::Kind)?;
    check_misread(&rt, "1 2 turns", 0, Expected::Kind)?;
    check_misread(&rt, "plain 1 x turns", 2, Expected::Tray)?;
    check_misread(&rt, "plain 1 2", 3, Expected::Tray)?;
    check_misread(&rt, "sided 1 -128 turns", 2, Expected::Tray)?;
    check_misread(&rt, "plain count count", 2, Expected::CountNumber)?;
    check_misread(&rt, "sided 1 count -1", 3, Expected::CountNumber)?;
    check_misread(&rt, "plain 1 count 1", 4, Expected::ActionWord)?;
    check_misread(&rt, "plain 1 turns 2 plain", 4, Expected::Turn)?;
    check_misread(&rt, "plain 1 turns -1", 3, Expected::Turn)?;
    check_misread(&rt, "plain 1 dual 1", 3, Expected::End)?;
    check_misread(&rt, "plain 1 dual estimate", 3, Expected::End)?;
    check_misread(&rt, "plain 1 estimate 1", 3, Expected::End)?;
    check_misread(&rt, "plain 1 turns 2 estimate", 4, Expected::Turn)?;
    check_misread(&rt, "plain estimates", 1, Expected::Tray)
}

#[test]
fn misread_spans(rt: HostRuntime) -> Result<(), Fail> {
    check_misread(&rt, "plain 1 span 1 turns", 2, Expected::Tray)?;
    check_misread(&rt, "sided 1 count 1 span 1 dual", 4, Expected::ActionWord)?;
    check_misread(&rt, "ring 1 turns", 2, Expected::RingTray)?;
    check_misread(&rt, "ring 1 dual", 2, Expected::RingTray)?;
    check_misread(&rt, "ring 1 estimate", 2, Expected::RingTray)?;
    check_misread(&rt, "ring 1 count 1 turns", 4, Expected::SpanWord)?;
    check_misread(&rt, "ring 1 span turns", 3, Expected::SpanNumber)?;
    check_misread(&rt, "ring 1 span 1 count 1 turns", 4, Expected::ActionWord)?;
    check_misread(&rt, "ring 1 span 1", 4, Expected::ActionWord)
}

fn check_text(rt: &(impl Abort + AllocGlobal), expected: Expected, text: &str) -> Result<(), Fail> {
    assert_eq!(rt; format!(in rt.alloc(); "{expected}")?.as_str(), text);
    Ok(())
}

#[test]
fn what_is_expected(rt: HostRuntime) -> Result<(), Fail> {
    check_text(
        &rt,
        Expected::Tray,
        "a tray (as 3, or -3 in a sided tower), `count`, `turns`, `dual`, `estimate` or `plan`",
    )?;
    check_text(
        &rt,
        Expected::ActionWord,
        "`turns`, `dual`, `estimate` or `plan`",
    )?;
    check_text(
        &rt,
        Expected::LooksNumber,
        "the number of looks, from 1 to 2000000000",
    )
}

fn check_failure(
    rt: &(impl Abort + AllocGlobal),
    line: &str,
    failure: Failure,
) -> Result<(), Fail> {
    match perform(rt.alloc(), line) {
        Ok(_) => Err(Fail::new("done")),
        Err(f) => {
            assert_eq!(rt; f, failure);
            Ok(())
        }
    }
}

#[test]
fn outcomes(rt: HostRuntime) -> Result<(), Fail> {
    let Ok(Some(Outcome::Plain(completed))) = perform(rt.alloc(), "plain 1 3 2 turns 2 3 2") else {
        return Err(Fail::new("not done"));
    };
    assert_eq!(rt; completed.start.trays(), [1, 3, 2].as_slice());
    let Done::Followed { trace, .. } = &completed.done else {
        return Err(Fail::new("not followed"));
    };
    assert_eq!(rt; trace.ending, Ending::Home);
    check_failure(
        &rt,
        "plain 1 x turns",
        Failure::Unexpected {
            at: 2,
            expected: Expected::Tray,
        },
    )?;
    check_failure(
        &rt,
        "plain 1 2 estimate 3",
        Failure::Unexpected {
            at: 4,
            expected: Expected::End,
        },
    )?;
    assert!(rt; matches!(perform(rt.alloc(), "  "), Ok(None)));
    Ok(())
}

#[test]
fn duals_of_lines(rt: HostRuntime) -> Result<(), Fail> {
    let Ok(Some(Outcome::Ring(completed))) = perform(rt.alloc(), "ring 3 1 4 2 span 3 dual") else {
        return Err(Fail::new("not done"));
    };
    let Done::Mirrored(dual) = &completed.done else {
        return Err(Fail::new("no dual"));
    };
    assert_eq!(rt; dual.trays(), [2, 4, 1, 3].as_slice());
    assert_eq!(rt; dual.span(), 3);
    Ok(())
}

fn check_done<M>(rt: &impl Abort, done: &Done<M>, estimates: Estimates) -> Result<(), Fail> {
    let Done::Estimated(numbers) = done else {
        return Err(Fail::new("no estimates"));
    };
    assert_eq!(rt; *numbers, estimates);
    Ok(())
}

fn check_estimates(
    rt: &(impl Abort + AllocGlobal),
    line: &str,
    estimates: Estimates,
) -> Result<(), Fail> {
    match perform(rt.alloc(), line)? {
        None => Err(Fail::new("nothing asked")),
        Some(Outcome::Plain(completed)) => check_done(rt, &completed.done, estimates),
        Some(Outcome::Sided(completed)) => check_done(rt, &completed.done, estimates),
        Some(Outcome::Ring(completed)) => check_done(rt, &completed.done, estimates),
    }
}

#[test]
fn estimates_of_lines(rt: HostRuntime) -> Result<(), Fail> {
    check_estimates(&rt, "plain 1 3 2 estimate", estimates(2, 3, 3))?;
    check_estimates(&rt, "sided -2 3 1 estimate", estimates(3, 3, 4))?;
    check_estimates(&rt, "ring 2 3 4 1 span 2 estimate", estimates(0, 2, 2))
}

// What came of the search that is asked for, on the plain tower 1 3 2.
fn planned(rt: &impl AllocGlobal, action: &str) -> Result<Planned<PlainTower>, Fail> {
    let line = format!(in rt.alloc(); "plain 1 3 2 {action}")?;
    let Ok(Some(Outcome::Plain(completed))) = perform(rt.alloc(), &line) else {
        return Err(Fail::new("not done"));
    };
    match completed.done {
        Done::Planned { planned, .. } => Ok(planned),
        _ => Err(Fail::new("nothing planned")),
    }
}

#[test]
fn plans_of_lines(rt: HostRuntime) -> Result<(), Fail> {
    let Planned::Found {
        turns,
        trace,
        looks,
    } = planned(&rt, "plan looks 4")?
    else {
        return Err(Fail::new("no plan"));
    };
    assert_eq!(rt; turns.as_slice(), [2, 3, 2].as_slice());
    assert_eq!(rt; trace.ending, Ending::Home);
    assert_eq!(rt; looks, 4);
    assert!(rt;
        matches!(
            planned(&rt, "plan looks 3")?,
            Planned::Unfinished { looks: 3 }
        )
    );
    let cut = planned(&rt, "plan limit 3 looks 1")?;
    assert!(rt; matches!(cut, Planned::Unfinished { looks: 1 }));
    assert!(rt;
        matches!(
            planned(&rt, "plan limit 2 looks 1")?,
            Planned::NoPlan { looks: 1 }
        )
    );
    assert!(rt; matches!(planned(&rt, "plan limit 65 looks 1")?, Planned::Refused(_)));
    Ok(())
}

// Any number of looks may be granted.
#[test]
fn looks_beyond_a_line(rt: HostRuntime) -> Result<(), Fail> {
    let none = plan_within(rt.alloc(), PlainTower::new(), Gaps, 64, 0)?;
    assert!(rt; matches!(none, Planned::Unfinished { looks: 0 }));
    let most = plan_within(rt.alloc(), PlainTower::new(), Gaps, 64, u32::MAX)?;
    assert!(rt; matches!(most, Planned::Found { looks: 1, .. }));
    Ok(())
}

// A line may have any number of turns.
#[test]
fn long_line(rt: HostRuntime) -> Result<(), Fail> {
    let mut line = String::new(rt.alloc());
    line.push_str("plain 2 1 turns")?;
    for _ in 0..301 {
        line.push_str(" 2")?;
    }
    let Ok(Some(Outcome::Plain(completed))) = perform(rt.alloc(), line.as_str()) else {
        return Err(Fail::new("no tower"));
    };
    let Done::Followed { turns, trace } = completed.done else {
        return Err(Fail::new("no turns"));
    };
    assert_eq!(rt; turns.len(), 301);
    assert_eq!(rt; trace.ending, Ending::Home);
    Ok(())
}

// Towers of every number of trays, one turn from home.
#[test]
fn plans_of_each_size(rt: HostRuntime) -> Result<(), Fail> {
    for n in 2..=32 {
        let mut tower: PlainTower = home(n, ())?;
        assert_eq!(rt; tower.turn(n), Ok(()));
        let planned = plan_within(rt.alloc(), tower, Gaps, 64, u32::MAX)?;
        let Planned::Found { turns, trace, .. } = planned else {
            return Err(Fail::new("no plan"));
        };
        assert_eq!(rt; turns.as_slice(), [n].as_slice());
        assert_eq!(rt; trace.ending, Ending::Home);
    }
    Ok(())
}

// No machine is set, whatever is asked of it.
fn check_unset(
    rt: &(impl Abort + AllocGlobal),
    setting: &str,
    kind: Kind,
    fault: Fault,
) -> Result<(), Fail> {
    for action in ["turns", "dual", "estimate"] {
        let line = format!(in rt.alloc(); "{setting} {action}")?;
        check_failure(rt, &line, Failure::Refused { kind, fault })?;
    }
    Ok(())
}

#[test]
fn refused_settings(rt: HostRuntime) -> Result<(), Fail> {
    check_unset(&rt, "plain 1 2 count 1", Kind::Plain, Fault::TrayBeyond(1))?;
    check_unset(&rt, "sided 1 -1", Kind::Sided, Fault::TrayRepeated(1))?;
    check_unset(&rt, "ring 1 2 3 4 span 5", Kind::Ring, Fault::Span)
}
