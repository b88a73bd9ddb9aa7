ghost use Rattle.std.specs.Prelude.{false, refl, ◌≤◌};
ghost use Rattle.std.proofs.Common.{le_refl};
ghost use Rattle.tests.specs.NeverHome.{never_home};

use crate::checked_planner::CheckedPlanner;
use estimate::{Estimate, LookAhead, SuccessorEstimate};
use machine::{Fault, Machine, TurnRange};
use planner::{Answer, Call};
use std::process::Abort;
use std::test::*;

// A machine that is never home. Each of its turns, from 1 to `highest`, exchanges its two numbers.
#[derive(Clone, Copy)]
struct Swing {
    highest: u8,
    here: u8,
    there: u8,
    ghost few: { highest ≤ 250 },
    ghost here_to_250: { here ≤ 250 },
    ghost there_to_250: { there ≤ 250 },
}

impl Machine for Swing {
    type State = Swing;

    const LETTER: u8 = b'W';

    const LEAST: u8 = 1;

    ghost LETTER = { 87 };

    ghost LEAST = { 1 };

    ghost meaning = { record { lowest = λ _. 1; highest = λ s. s.highest; after = λ s _. record { highest = s.highest; here = s.there; there = s.here; few = s.few; here_to_250 = s.there_to_250; there_to_250 = s.here_to_250 }; home = λ _. false } };

    ghost state = { λ s. s };

    ghost lawful = { record { from_one = λ _. le_refl 1; to_highest = λ s. s.few; twice = λ _ _ _. refl; same_lowest = λ _ _ _. refl; same_highest = λ _ _ _. refl } };

    fn range(&self) -> TurnRange {
        TurnRange {
            lowest: 1,
            highest: self.highest,
        }
    }

    fn is_home(&self) -> bool {
        false
    }

    fn turn(&mut self, k: u8) -> Result<(), Fault> {
        if !self.range().contains(k) {
            return Err(Fault::NoSuchTurn);
        }
        *self = Swing {
            highest: self.highest,
            here: self.there,
            there: self.here,
        };
        Ok(())
    }
}

// The number here. It is an estimate, since no list of turns brings the machine home.
#[derive(Clone, Copy)]
struct Numbered;

impl Estimate<Swing> for Numbered {
    ghost value = { λ _ s. s.here };

    ghost sound = { λ _. record { to_highest = λ s. s.here_to_250; admissible = λ s ks b. absurd (never_home _ (λ _. refl) s ks b) } };

    fn ask(&self, machine: &Swing) -> u8 {
        machine.here
    }
}

impl SuccessorEstimate<Swing> for Numbered {}

// Look-ahead over the number here, on a machine of these turns and numbers.
fn check_ahead(rt: &impl Abort, highest: u8, here: u8, there: u8, ahead: u8)
    requires turns { highest ≤ 250 }
    requires here { here ≤ 250 }
    requires there { there ≤ 250 }
{
    let machine = Swing {
        highest,
        here,
        there,
    };
    assert_eq!(rt; LookAhead { below: Numbered }.ask(&machine), ahead);
}

#[test]
fn without_turns(rt: HostRuntime) {
    check_ahead(&rt, 0, 0, 0, 0);
    check_ahead(&rt, 0, 9, 9, 9);
    check_ahead(&rt, 0, 9, 20, 9);
    check_ahead(&rt, 0, 250, 250, 250);
}

#[test]
fn with_turns(rt: HostRuntime) {
    check_ahead(&rt, 1, 0, 0, 1);
    check_ahead(&rt, 1, 9, 9, 10);
    check_ahead(&rt, 250, 9, 9, 10);
    check_ahead(&rt, 1, 9, 20, 21);
    check_ahead(&rt, 1, 20, 9, 20);
}

#[test]
fn at_most_250(rt: HostRuntime) {
    check_ahead(&rt, 1, 249, 249, 250);
    check_ahead(&rt, 1, 250, 250, 250);
    check_ahead(&rt, 250, 250, 250, 250);
}

// There is no plan for this machine within the limit, after so many looks.
fn check_none(rt: &impl Abort, machine: Swing, limit: u8, looks: u32) {
    let mut planner = CheckedPlanner::new(machine, Numbered);
    planner.find_none(rt, machine, limit, looks);
}

// A machine of these turns with the number 0.
fn zeros(highest: u8) -> Swing
    requires { highest ≤ 250 }
{
    Swing {
        highest,
        here: 0,
        there: 0,
    }
}

#[test]
fn no_plan_without_turns(rt: HostRuntime) {
    for number in 0..=250 {
        let machine = Swing {
            highest: 0,
            here: number,
            there: number,
        };
        check_none(&rt, machine, 64, 1);
    }
}

// A round with the threshold t looks at the start and, with two turns, at t + 1 states on both ways. With one turn it looks at one state more, from which no other turn leads on: the second round cuts nothing and is the last.
#[test]
fn no_plan_within_each_limit(rt: HostRuntime) {
    for limit in 0..=64 {
        let rounds = u32::from(limit) + 1;
        check_none(&rt, zeros(1), limit, 2 * rounds.min(2));
        check_none(&rt, zeros(2), limit, rounds * (rounds + 2));
    }
}

// With three turns each round looks at about twice as many states as the one before, and there are 65 rounds.
#[test]
fn highest_grant(rt: HostRuntime) {
    let machine = zeros(3);
    let mut planner = CheckedPlanner::new(machine, Numbered);
    planner.load(&rt, machine, 64);
    planner.ask(
        &rt,
        Call::Work { grant: 1_000_000 },
        Answer::Working { looks: 1_000_000 },
    );
    planner.refuse(&rt, Call::Work { grant: 1_000_001 }, planner::Fault::Grant);
    planner.ask(
        &rt,
        Call::Work { grant: 1 },
        Answer::Working { looks: 1_000_001 },
    );
}
