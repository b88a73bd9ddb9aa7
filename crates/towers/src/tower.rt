ghost use Rattle.std.specs.Prelude.{◌≡◌, true, ◌≤◌, map, None};
ghost use Rattle.machine.specs.Duals.{IsDual};
ghost use Rattle.trays.proofs.KindFacts.{kind_lawful, kind_duals};

use crate::sided_tray::SidedTray;
use crate::tower_tray::TowerTray;
use machine::{Dual, Fault, Machine, TurnRange};
use reversal::reverse_part;
use trays::{Arrangement, Settable, Setup, Tray};

/// A tower of trays, the first at the top. Turn k turns round the first k trays as one block, and over where they have sides.
#[derive(Clone, Copy)]
pub struct Tower<T: Tray> {
    pub(crate) arrangement: Arrangement<T>,
}

/// A tower whose trays are numbers.
pub type PlainTower = Tower<u8>;

/// A tower whose trays have a number and a door side.
pub type SidedTower = Tower<SidedTray>;

impl<T: TowerTray> Tower<T> {
    ghost use Rattle.towers.specs.Towers.{mirrored, tower, turned};

    // The tower with its first k trays turned round, and over where they have sides.
    fn flipped(&self, k: u8) -> Tower<T>
        requires { k ≤ self.now.arrangement.n }
        ensures { result ≡ turned self.now k }
    {
        let Arrangement { n, mut trays } = self.arrangement;
        reverse_part(&mut trays, 0, k as usize);
        turn_over(&mut trays[..k as usize]);
        Tower {
            arrangement: Arrangement { n, trays },
        }
    }

    // The tower whose trays and places have changed parts.
    fn inverted(&self) -> Tower<T>
        ensures dual { IsDual (tower T.LOWEST) mirrored self.now result }
        ensures again { mirrored result ≡ self.now }
    {
        Tower {
            arrangement: self.arrangement.inverted(),
        }
    }
}

// Changes the side of each tray, where it has sides.
fn turn_over<T: TowerTray>(trays: &mut [T])
    ensures { trays.new ≡ map (T.form.sided true) trays.old }
{
    for tray in trays.iter_mut() {
        *tray = tray.turned_over();
    }
}

impl<T: TowerTray> Machine for Tower<T> {
    ghost use Rattle.towers.specs.Towers.{mirrored, tower};
    ghost use Rattle.towers.specs.Laws.{count, tower_kind};

    type State = Tower<T>;

    const LETTER: u8 = T::LETTER;

    const LEAST: u8 = 1;

    ghost LETTER = { T.LETTER };

    ghost LEAST = { 1 };

    ghost meaning = { tower T.LOWEST };

    ghost state = { λ s. s };

    ghost lawful = { kind_lawful T.form T.regular (tower T.LOWEST) mirrored count (tower_kind T.LOWEST T.from_one) };

    fn range(&self) -> TurnRange {
        TurnRange {
            lowest: T::LOWEST,
            highest: self.arrangement.n,
        }
    }

    fn is_home(&self) -> bool {
        self.arrangement.is_home()
    }

    fn turn(&mut self, k: u8) -> Result<(), Fault> {
        if !self.range().contains(k) {
            return Err(Fault::NoSuchTurn);
        }
        *self = self.flipped(k);
        Ok(())
    }
}

impl<T: TowerTray> Dual for Tower<T> {
    ghost use Rattle.towers.specs.Towers.{mirrored, tower};
    ghost use Rattle.towers.specs.Laws.{count, tower_kind};

    ghost mirror = { mirrored };

    ghost duals = { kind_duals T.form T.regular (tower T.LOWEST) mirrored count (tower_kind T.LOWEST T.from_one) };

    /// The dual; its own dual is this tower.
    fn dual(&self) -> Tower<T>
        ensures dual { IsDual (tower T.LOWEST) mirrored self.now result }
        ensures again { mirrored result ≡ self.now }
    {
        self.inverted()
    }
}

impl<T: TowerTray> Settable for Tower<T> {
    ghost use Rattle.towers.specs.Laws.{held_fixed};
    ghost use Rattle.towers.specs.Towers.{held};

    type Tray = T;

    type Span = ();

    ghost form = { T.form };

    ghost spanning = { λ _. None };

    ghost holding = { held };

    ghost fixed = { held_fixed };

    ghost first = { None };

    fn new() -> Tower<T> {
        Tower {
            arrangement: Arrangement::home(1),
        }
    }

    fn trays(&self) -> &[T] {
        self.arrangement.trays()
    }

    fn set(&mut self, setup: &Setup<()>) -> Result<(), Fault> {
        self.arrangement.set(Self::LEAST, None, setup)
    }
}
