ghost use Rattle.std.specs.Prelude.{◌≡◌, ◌+◌, ◌≤◌, length, take};
ghost use Rattle.estimate.specs.Layers.{least_after};
ghost use Rattle.estimate.specs.Meaning.{Consistent};
ghost use Rattle.gaps.specs.Counts.{breakpoints, gaps, tower_count};
ghost use Rattle.gaps.specs.Laws.{tower_sound};
ghost use Rattle.towers.specs.Towers.{tower as meaning, turned};
ghost use Rattle.towers.specs.declared.tower.Tower.{Tower};

use crate::count::{count_apart, lesser};
use crate::neighbour::Neighbour;
use crate::{Breakpoints, Gaps};
use estimate::{Estimate, SuccessorEstimate};
use towers::{PlainTower, SidedTower, Tower};
use trays::Settable;

/// How many trays of a tower are apart from the one below. The crate gives it under two names that say what is counted: `Gaps` at a plain tower, `Breakpoints` at a sided one.
#[derive(Clone, Copy)]
pub struct ApartCount;

impl<T: Neighbour> Estimate<Tower<T>> for ApartCount {
    ghost value = { λ _. tower_count T.apart };

    ghost sound = { λ _. tower_sound T.apart T.lawful T.LOWEST };

    fn ask(&self, tower: &Tower<T>) -> u8 {
        count_on_plate(tower)
    }
}

impl<T: Neighbour> SuccessorEstimate<Tower<T>> for ApartCount {
    fn least_after(&self, tower: &Tower<T>) -> Option<u8> {
        least_on_plate(tower)
    }
}

/// How many trays of a plain tower have a number more than 1 from that of the next one down, which for the last is n + 1.
#[tactic(auto, using(crate::specs::Laws::gaps_consistent))]
pub fn count_gaps(tower: &PlainTower) -> u8
    ensures consistent { Consistent ⟦<PlainTower as machine::Machine>⟧.meaning 1 gaps }
    ensures value { result ≡ gaps tower.now }
{
    Gaps.ask(tower)
}

/// How many trays of a sided tower have one below that is not greater by exactly 1.
#[tactic(auto, using(crate::specs::Laws::breakpoints_consistent))]
pub fn count_breakpoints(tower: &SidedTower) -> u8
    ensures consistent { Consistent ⟦<SidedTower as machine::Machine>⟧.meaning 1 breakpoints }
    ensures value { result ≡ breakpoints tower.now }
{
    Breakpoints.ask(tower)
}

// How many trays of a tower are apart from the one below, where the plate lies below the last.
#[tactic(auto, unfolding(crate::specs::Counts::tower_count))]
fn count_on_plate<T: Neighbour>(tower: &Tower<T>) -> u8
    ensures { result ≡ tower_count T.apart tower.now }
{
    count_apart(
        tower.trays(),
        plate(tower),
        |tray: T, below: T| tray.is_apart(below),
    )
}

// The plate below a tower of n trays, as tray n + 1.
#[tactic(auto, using(crate::proofs::Held::plate_of))]
fn plate<T: Neighbour>(tower: &Tower<T>) -> T
    ensures { result ≡ T.form.upright (tower.now.arrangement.n + 1) }
{
    T::upright(tower.trays().len() as u8 + 1)
}

// The least number after one turn, where there is a turn.
fn least_on_plate<T: Neighbour>(tower: &Tower<T>) -> Option<u8>
    ensures { result ≡ least_after (meaning T.LOWEST) (tower_count T.apart) tower.now }
{
    let trays = tower.trays();
    let plate = plate(tower);
    let here = count_on_plate(tower);
    let mut least = None;
    for k in T::LOWEST..=trays.len() as u8 {
        least = lesser(least, count_after(trays, plate, here, k));
    }
    least
}

// The number after turn k, where it is `here` now. Above the tray below the block is then the first one, turned over, in place of the last of the block; of the other neighbours as many are apart as before.
fn count_after<T: Neighbour>(trays: &[T], plate: T, here: u8, k: u8) -> u8
    requires low { 1 ≤ k }
    requires high { k ≤ length trays.now }
    ensures { (tower : Tower T T.Tray) → trays.now ≡ take tower.arrangement.n tower.arrangement.trays →
        plate ≡ T.form.upright (tower.arrangement.n + 1) → here ≡ tower_count T.apart tower → result ≡ tower_count T.apart (turned tower k) }
{
    let k = k as usize;
    let below = trays.get(k).copied().unwrap_or(plate);
    let joined = u8::from(trays[0].turned_over().is_apart(below));
    let parted = u8::from(trays[k - 1].is_apart(below));
    here.saturating_add(joined).saturating_sub(parted)
}
