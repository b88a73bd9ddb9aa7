use crate::checked_planner::{UNTOUCHED, sheet_of};
use crate::given::tower;
use gaps::Gaps;
use planner::{Answer, Call, Fault, Played, play};
use std::process::Abort;
use std::test::*;
use towers::PlainTower;

// A call, what is replied to it, and the turns in the sheet after it.
type Step<'a> = (Call<PlainTower>, Result<Answer, Fault>, &'a [u8]);

// These calls are replied so on a planner over gaps.
fn check_play(rt: &(impl Abort + AllocGlobal), steps: &[Step]) -> Result<(), Fail> {
    let mut calls = Vec::new(rt.alloc());
    for (call, _, _) in steps {
        calls.push(*call)?;
    }
    let unplayed = Played {
        reply: Ok(Answer::Accepted),
        sheet: UNTOUCHED,
    };
    let mut replies = vec![in rt.alloc(); unplayed; steps.len()]?;
    let played = play(tower::<u8>(1, &[1])?, Gaps, &mut calls, &mut replies);
    assert_eq!(rt; played, steps.len());
    for (n, (reply, step)) in replies.iter().zip(steps).enumerate() {
        let expected = Played {
            reply: step.1,
            sheet: sheet_of(step.2),
        };
        assert_eq!(rt; *reply, expected, "at call {n}");
    }
    Ok(())
}

#[test]
fn nothing_asked(rt: HostRuntime) -> Result<(), Fail> {
    check_play(&rt, &[])
}

// The second plan is shorter than the one that stands in the sheet before.
#[test]
fn two_plans(rt: HostRuntime) -> Result<(), Fail> {
    let three = tower::<u8>(3, &[1, 3, 2])?;
    let two = tower::<u8>(2, &[2, 1])?;
    check_play(
        &rt,
        &[
            (
                Call::Load {
                    machine: three,
                    limit: 64,
                },
                Ok(Answer::Accepted),
                &[],
            ),
            (
                Call::Work { grant: 6 },
                Ok(Answer::Working { looks: 6 }),
                &[],
            ),
            (
                Call::Work { grant: 1 },
                Ok(Answer::Found {
                    length: 3,
                    looks: 7,
                }),
                &[],
            ),
            (Call::Fetch, Ok(Answer::Fetched { length: 3 }), &[2, 3, 2]),
            (
                Call::Load {
                    machine: two,
                    limit: 64,
                },
                Ok(Answer::Accepted),
                &[2, 3, 2],
            ),
            (Call::Fetch, Err(Fault::NotFound), &[2, 3, 2]),
            (
                Call::Work { grant: 9 },
                Ok(Answer::Found {
                    length: 1,
                    looks: 2,
                }),
                &[2, 3, 2],
            ),
            (Call::Fetch, Ok(Answer::Fetched { length: 1 }), &[2]),
            (Call::Fetch, Ok(Answer::Fetched { length: 1 }), &[2]),
        ],
    )
}

#[test]
fn refusals_among_the_calls(rt: HostRuntime) -> Result<(), Fail> {
    let three = tower::<u8>(3, &[1, 3, 2])?;
    let two = tower::<u8>(2, &[2, 1])?;
    check_play(
        &rt,
        &[
            (Call::Fetch, Err(Fault::NotFound), &[]),
            (Call::Work { grant: 1 }, Err(Fault::NoTask), &[]),
            (Call::Drop, Err(Fault::NothingToDrop), &[]),
            (
                Call::Load {
                    machine: three,
                    limit: 65,
                },
                Err(Fault::Limit),
                &[],
            ),
            (
                Call::Load {
                    machine: three,
                    limit: 64,
                },
                Ok(Answer::Accepted),
                &[],
            ),
            (Call::Work { grant: 0 }, Err(Fault::Grant), &[]),
            (
                Call::Work { grant: 4 },
                Ok(Answer::Working { looks: 4 }),
                &[],
            ),
            (
                Call::Load {
                    machine: two,
                    limit: 64,
                },
                Err(Fault::AtWork),
                &[],
            ),
            (
                Call::Load {
                    machine: two,
                    limit: 65,
                },
                Err(Fault::Limit),
                &[],
            ),
            (Call::Fetch, Err(Fault::NotFound), &[]),
            (Call::Work { grant: 1_000_001 }, Err(Fault::Grant), &[]),
            (
                Call::Work { grant: 1_000_000 },
                Ok(Answer::Found {
                    length: 3,
                    looks: 7,
                }),
                &[],
            ),
            (Call::Work { grant: 1_000_001 }, Err(Fault::NoTask), &[]),
            (Call::Fetch, Ok(Answer::Fetched { length: 3 }), &[2, 3, 2]),
            (Call::Drop, Err(Fault::NothingToDrop), &[2, 3, 2]),
        ],
    )
}

#[test]
fn drops_among_the_calls(rt: HostRuntime) -> Result<(), Fail> {
    let three = tower::<u8>(3, &[1, 3, 2])?;
    let two = tower::<u8>(2, &[2, 1])?;
    check_play(
        &rt,
        &[
            (
                Call::Load {
                    machine: two,
                    limit: 1,
                },
                Ok(Answer::Accepted),
                &[],
            ),
            (
                Call::Work { grant: 2 },
                Ok(Answer::Found {
                    length: 1,
                    looks: 2,
                }),
                &[],
            ),
            (Call::Fetch, Ok(Answer::Fetched { length: 1 }), &[2]),
            (
                Call::Load {
                    machine: three,
                    limit: 64,
                },
                Ok(Answer::Accepted),
                &[2],
            ),
            (
                Call::Work { grant: 5 },
                Ok(Answer::Working { looks: 5 }),
                &[2],
            ),
            (Call::Drop, Ok(Answer::Accepted), &[2]),
            (Call::Fetch, Err(Fault::NotFound), &[2]),
            (
                Call::Load {
                    machine: two,
                    limit: 0,
                },
                Ok(Answer::Accepted),
                &[2],
            ),
            (
                Call::Work { grant: 1 },
                Ok(Answer::NoPlan { looks: 1 }),
                &[2],
            ),
            (Call::Fetch, Err(Fault::NotFound), &[2]),
            (
                Call::Load {
                    machine: three,
                    limit: 3,
                },
                Ok(Answer::Accepted),
                &[2],
            ),
            (Call::Drop, Ok(Answer::Accepted), &[2]),
            (Call::Drop, Err(Fault::NothingToDrop), &[2]),
        ],
    )
}
