ghost use Rattle.std.specs.Prelude.{◌≡◌, ◌+◌, [], length, reverse, take};
ghost use Rattle.walk.specs.Left.{and_above, left_here};
ghost use Rattle.walk.specs.Nexts.{Next};
ghost use Rattle.walk.specs.Sheets.{padded};
ghost use Rattle.walk.specs.declared.moved.Moved.TheVariants.{ByTurn};
ghost use Rattle.walk.specs.declared.sheet.TheConstants.{SHEET_PLACES};

use crate::depth_record::DepthRecord;
use crate::moved::Moved;
use crate::sheet::Sheet;
use crate::step::Step;
use crate::trail::Trail;
use machine::{Machine, TurnRange};
use search::HIGHEST_LIMIT;

/// A walk over the states of a machine, depth first: where it is, and the turns that led there.
#[derive(Clone, Copy)]
pub struct Walk<M> {
    here: M,
    trail: Trail,
}

impl<M: Machine + Drop> Walk<M> {
    ghost use Rattle.walk.specs.Walks.{made, tried, machine as machine_of, IsAtStart, GoesOn, WentDown, WentBack};

    /// A walk that starts at this machine.
    pub fn new(machine: M) -> Walk<M>
        ensures { IsAtStart machine result }
    {
        Walk {
            here: machine,
            trail: Trail::new(),
        }
    }

    /// Starts again, at this machine.
    pub fn begin(&mut self, machine: M)
        ensures { IsAtStart machine self.new }
    {
        self.here = machine;
        self.trail.clear();
    }

    /// The machine as it stands now.
    pub fn here(&self) -> &M
        ensures { result.now ≡ machine_of self.now }
    {
        &self.here
    }

    /// How many turns led here.
    pub fn depth(&self) -> u8
        ensures { result ≡ length (made self.now) }
    {
        self.trail.depth() as u8
    }

    /// Writes the turns that led here, as far as the sheet has places.
    pub fn write(&self, sheet: &mut Sheet)
        ensures { sheet.new ≡ padded (take SHEET_PLACES (reverse (made self.now))) }
    {
        self.trail.write(sheet);
    }

    /// Goes back by the turn that led here, and then on.
    pub fn leave(&mut self) -> Step
        ensures { GoesOn M.meaning M.state self.old
            (λ e threshold. and_above M.meaning e threshold (made self.old) (M.state (machine_of self.old)) []) result self.new }
    {
        match self.go_back() {
            Moved::ByTurn => self.advance(),
            Moved::NoneLeft => Step::RoundOver,
        }
    }

    /// Goes on by the next turn here, or at the nearest state on the way back that has one. Where none has, the walk is back at its start, and over.
    pub fn advance(&mut self) -> Step
        ensures { GoesOn M.meaning M.state self.old
            (λ e threshold. left_here M.meaning e threshold (made self.old) (M.state (machine_of self.old)) (tried self.old)) result self.new }
    {
        while let Moved::NoneLeft = self.go_down() {
            if let Moved::NoneLeft = self.go_back() {
                return Step::RoundOver;
            }
        }
        Step::Reached
    }

    // Makes the next turn to try here, if there is one.
    fn go_down(&mut self) -> Moved
        ensures { WentDown M.meaning M.state self.old result self.new }
    {
        // a state deeper than any limit is never continued
        if self.depth() > HIGHEST_LIMIT {
            return Moved::NoneLeft;
        }
        match next_turn(self.here.range(), self.trail.record()) {
            None => Moved::NoneLeft,
            Some(k) => {
                self.trail.push(k);
                self.here.turn(k).unwrap();
                Moved::ByTurn
            }
        }
    }

    // Makes the turn that led here once more, which leads back. At the start there is none, and each turn is then yet to be tried there.
    fn go_back(&mut self) -> Moved
        ensures went { WentBack M.meaning M.state self.old result self.new }
        ensures depth { result ≡ ByTurn → length (made self.old) ≡ length (made self.new) + 1 }
    {
        let Some(k) = self.trail.pop() else {
            self.trail.clear();
            return Moved::NoneLeft;
        };
        // The turn led here, so it is in range and is not refused. The contract takes that as given, and the type does not say it: a fact that cites the machine's meaning would make every type that holds a walk depend on that meaning. So the answer is asked.
        match self.here.turn(k) {
            Ok(()) => Moved::ByTurn,
            Err(_) => Moved::NoneLeft,
        }
    }
}

// The next turn to try: the least after the one tried last that did not lead here.
fn next_turn(range: TurnRange, here: DepthRecord) -> Option<u8>
    ensures { Next range here result }
{
    let next = here.tried.checked_add(1)?.max(range.lowest);
    let next = if next == here.led {
        next.checked_add(1)?
    } else {
        next
    };
    (next <= range.highest).then_some(next)
}
