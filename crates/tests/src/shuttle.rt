ghost use Rattle.std.specs.Prelude.{◌≡◌, ◌+◌, ◌≤◌};
ghost use Rattle.std.proofs.Common.{zero-le};

use crate::checked_planner::CheckedPlanner;
use estimate::Estimate;
use machine::{Fault, Machine, TurnRange};
use std::test::*;

// A machine that carries a load from one end to the other, and is home where nothing lies there: how many lie at each end. Turn 1 exchanges its ends; turn 2 exchanges them and carries one over, if any lies there.
#[derive(Clone, Copy)]
struct Shuttle {
    here: u8,
    there: u8,
    ghost few: { here + there ≤ 255 },
}

impl Machine for Shuttle {
    ghost use Rattle.tests.specs.Shuttles.{shuttle, shuttle_lawful};

    type State = (u8, u8);

    const LETTER: u8 = b'U';

    const LEAST: u8 = 1;

    ghost LETTER = { 85 };

    ghost LEAST = { 1 };

    ghost meaning = { shuttle };

    ghost state = { λ s. (s.here, s.there) };

    ghost lawful = { shuttle_lawful };

    fn range(&self) -> TurnRange {
        TurnRange {
            lowest: 1,
            highest: 2,
        }
    }

    fn is_home(&self) -> bool {
        self.there == 0
    }

    fn turn(&mut self, k: u8) -> Result<(), Fault> {
        (self.here, self.there) = match k {
            1 => (self.there, self.here),
            2 if self.there == 0 => (self.here, self.there),
            2 => (self.there - 1, self.here + 1),
            _ => return Err(Fault::NoSuchTurn),
        };
        Ok(())
    }
}

// 0 everywhere.
#[derive(Clone, Copy)]
struct Zero;

impl Estimate<Shuttle> for Zero {
    ghost value = { λ _ _. 0 };

    ghost sound = { λ _. record { to_highest = λ s. zero-le; admissible = λ s ks b. zero-le } };

    fn ask(&self, machine: &Shuttle) -> u8 {
        0
    }
}

// The turns 2 and 1 carry one over; turn 1 first leads away. A round with the threshold t looks at the start and at t + 1 states on both ways; in the last one the way home is one state shorter.
#[test]
fn as_many_turns_as_a_sheet_has_places(rt: HostRuntime) {
    let machine = Shuttle {
        here: 168,
        there: 32,
    };
    let mut plan = [1; 64];
    for turn in plan.iter_mut().step_by(2) {
        *turn = 2;
    }
    let mut planner = CheckedPlanner::new(machine, Zero);
    planner.find_none(&rt, machine, 63, 4224);
    planner.find(&rt, machine, 64, 4354, &plan);
}
