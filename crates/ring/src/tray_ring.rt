ghost use Rattle.std.specs.Prelude.{◌≡◌, ◌-◌, ◌<◌, ◌≤◌, Some};
ghost use Rattle.machine.specs.Duals.{IsDual};
ghost use Rattle.trays.proofs.KindFacts.{kind_lawful, kind_duals};
ghost use Rattle.trays.specs.Form.{number_tray, number_regular};
ghost use Rattle.trays.specs.Run.{RunReversed};

use machine::{Dual, Fault, Machine, TurnRange};
use trays::{Arrangement, MOST_TRAYS, Settable, Setup, place_on};

// It is a struct apart from the tower's, since a tower has no span.
/// A ring of trays, the first at place 1. Turn p turns round `span` of them, from place p on, counted round.
#[derive(Clone, Copy)]
pub struct TrayRing {
    pub(crate) arrangement: Arrangement<u8>,
    pub(crate) span: u8,
    ghost least: { 4 ≤ arrangement.n },
    ghost span_least: { 2 ≤ span },
    ghost span_most: { span ≤ arrangement.n },
}

impl TrayRing {
    ghost use Rattle.ring.specs.Ring.{mirrored, ring, run_of, turned};

    /// How many trays a turn turns round.
    pub fn span(&self) -> u8
        ensures { result ≡ self.now.span }
    {
        self.span
    }

    // The trays once the run from this place on, counted from 0, is turned round.
    fn run_turned(&self, from: u8) -> [u8; MOST_TRAYS]
        requires { from < self.now.arrangement.n }
        ensures value { result ≡ run_of self.now from }
        ensures reversed { RunReversed number_tray self.now.arrangement.n self.now.span from
            self.now.arrangement.trays result }
    {
        let Arrangement { n, mut trays } = self.arrangement;
        let span = self.span;
        // Both places are counted by j, the one forwards and the other backwards.
        for j in 0..span {
            let other = place_on(n, from, span - 1 - j);
            trays[place_on(n, from, j)] = self.arrangement.trays[other];
        }
        trays
    }

    // The ring after turn p.
    fn spun(&self, p: u8) -> TrayRing
        requires low { 1 ≤ p }
        requires high { p ≤ self.now.arrangement.n }
        ensures { result ≡ turned self.now p }
    {
        TrayRing {
            arrangement: Arrangement {
                n: self.arrangement.n,
                trays: self.run_turned(p - 1),
            },
            span: self.span,
        }
    }

    // The ring whose trays and places have changed parts.
    fn inverted(&self) -> TrayRing
        ensures dual { IsDual ring mirrored self.now result }
        ensures again { mirrored result ≡ self.now }
    {
        TrayRing {
            arrangement: self.arrangement.inverted(),
            span: self.span,
        }
    }
}

impl Machine for TrayRing {
    ghost use Rattle.ring.specs.Laws.{base, ring_kind};
    ghost use Rattle.ring.specs.Ring.{mirrored, ring};

    type State = TrayRing;

    const LETTER: u8 = b'R';

    const LEAST: u8 = 4;

    ghost LETTER = { 82 };

    ghost LEAST = { 4 };

    ghost meaning = { ring };

    ghost state = { λ s. s };

    ghost lawful = { kind_lawful number_tray number_regular ring mirrored base ring_kind };

    fn range(&self) -> TurnRange {
        TurnRange {
            lowest: 1,
            highest: self.arrangement.n,
        }
    }

    fn is_home(&self) -> bool {
        self.arrangement.is_home()
    }

    fn turn(&mut self, p: u8) -> Result<(), Fault> {
        if !self.range().contains(p) {
            return Err(Fault::NoSuchTurn);
        }
        *self = self.spun(p);
        Ok(())
    }
}

impl Dual for TrayRing {
    ghost use Rattle.ring.specs.Laws.{base, ring_kind};
    ghost use Rattle.ring.specs.Ring.{mirrored, ring};

    ghost mirror = { mirrored };

    ghost duals = { kind_duals number_tray number_regular ring mirrored base ring_kind };

    /// The dual; its own dual is this ring.
    fn dual(&self) -> TrayRing
        ensures dual { IsDual ring mirrored self.now result }
        ensures again { mirrored result ≡ self.now }
    {
        self.inverted()
    }
}

impl Settable for TrayRing {
    ghost use Rattle.ring.specs.Laws.{held_fixed};
    ghost use Rattle.ring.specs.Ring.{held};

    type Tray = u8;

    type Span = u8;

    ghost form = { number_tray };

    ghost spanning = { λ k. Some k };

    ghost holding = { held };

    ghost fixed = { held_fixed };

    ghost first = { Some 2 };

    fn new() -> TrayRing {
        TrayRing {
            arrangement: Arrangement::home(4),
            span: 2,
        }
    }

    fn trays(&self) -> &[u8] {
        self.arrangement.trays()
    }

    fn set(&mut self, setup: &Setup<u8>) -> Result<(), Fault> {
        let TrayRing { arrangement, span } = self;
        arrangement.set(Self::LEAST, Some(setup.span), setup)?;
        *span = setup.span;
        Ok(())
    }
}
