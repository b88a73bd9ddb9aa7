ghost use Rattle.std.specs.Prelude.{◌≡◌, ◌+◌, ◌<◌, ◌≤◌, if◌then◌else◌, length, slice_index, take};
ghost use Rattle.estimate.specs.Meaning.{Consistent};
ghost use Rattle.gaps.specs.Counts.{half_gaps, ring_gap, ring_gaps};
ghost use Rattle.gaps.specs.Laws.{half_sound};
ghost use Rattle.estimate.specs.Layers.{least_after};
ghost use Rattle.ring.specs.Ring.{ring as ring_machine, turned};
ghost use Rattle.ring.specs.declared.tray_ring.TrayRing.{TrayRing};
ghost use Rattle.trays.specs.declared.arrangement.TheConstants.{MOST_TRAYS};
ghost use Rattle.trays.specs.Run.{place_on};

use crate::count::{count_apart, lesser};
use estimate::{Estimate, SuccessorEstimate};
use ring::TrayRing;
use trays::{Settable, place_on};

/// How many trays of a ring of n have a next one round whose number is not 1 and not n - 1 away.
#[tactic(auto, using(crate::proofs::Held::ring_long, crate::specs::Laws::ring_consistent))]
pub fn count_ring_gaps(ring: &TrayRing) -> u8
    ensures consistent { Consistent ⟦<TrayRing as machine::Machine>⟧.meaning 2 ring_gaps }
    ensures value { result ≡ ring_gaps ring.now }
{
    let trays = ring.trays();
    let n = trays.len() as u8;
    count_apart(trays, trays[0], |tray, next| is_ring_gap(n, tray, next))
}

// Whether the difference of two neighbours in a ring of n trays is not 1 and not n - 1.
fn is_ring_gap(n: u8, tray: u8, next: u8) -> bool
    ensures { result ≡ ring_gap n tray next }
{
    let difference = tray.abs_diff(next);
    difference != 1 && difference != n.saturating_sub(1)
}

/// Half the gaps of a ring, rounded up: a turn lowers the gaps by at most 2.
#[derive(Clone, Copy)]
pub struct HalfGaps;

impl Estimate<TrayRing> for HalfGaps {
    ghost value = { λ _. half_gaps };

    ghost sound = { λ _. half_sound };

    fn ask(&self, ring: &TrayRing) -> u8 {
        count_ring_gaps(ring).div_ceil(2)
    }
}

impl SuccessorEstimate<TrayRing> for HalfGaps {
    fn least_after(&self, ring: &TrayRing) -> Option<u8> {
        least_on_ring(ring)
    }
}

// The least half gaps after one turn.
#[tactic(auto, using(crate::proofs::Held::ring_long))]
fn least_on_ring(ring: &TrayRing) -> Option<u8>
    ensures { result ≡ least_after ring_machine half_gaps ring.now }
{
    let here = count_ring_gaps(ring);
    let trays = ring.trays();
    let mut least = None;
    for from in 0..trays.len() as u8 {
        let after = gaps_after(trays, ring.span(), here, from);
        least = lesser(least, after.div_ceil(2));
    }
    least
}

// The gaps after the turn whose run begins at place `from`, counted from 0, where there are `here` now. The last tray of the run is then beside the one before the run, and the first beside the one after the run; a run of the whole ring keeps all neighbours.
fn gaps_after(trays: &[u8], span: u8, here: u8, from: u8) -> u8
    requires few { length trays.now ≤ MOST_TRAYS }
    requires from { from < length trays.now }
    requires some { 1 ≤ span }
    requires fits { span ≤ length trays.now }
    ensures { (ring : TrayRing) → trays.now ≡ take ring.arrangement.n ring.arrangement.trays → span ≡ ring.span →
        here ≡ ring_gaps ring → result ≡ ring_gaps (turned ring (from + 1)) }
{
    let n = trays.len() as u8;
    if span == n {
        return here;
    }
    let first = trays[from as usize];
    let last = tray_on(trays, from, span - 1);
    let next = tray_on(trays, from, span);
    let before = tray_on(trays, from, n - 1);
    let joined = gaps_between(n, first, next, before, last);
    let parted = gaps_between(n, last, next, before, first);
    here.saturating_add(joined).saturating_sub(parted)
}

// How many of two pairs of neighbours are gaps.
fn gaps_between(n: u8, tray: u8, next: u8, before: u8, after: u8) -> u8
    ensures { result ≡ (if ring_gap n tray next then 1 else 0) + (if ring_gap n before after then 1 else 0) }
{
    u8::from(is_ring_gap(n, tray, next)) + u8::from(is_ring_gap(n, before, after))
}

// The tray that stands j steps on from a place, counted round.
fn tray_on(trays: &[u8], from: u8, j: u8) -> u8
    requires few { length trays.now ≤ MOST_TRAYS }
    requires from { from < length trays.now }
    requires steps { j < length trays.now }
    ensures { result ≡ slice_index trays.now (place_on (length trays.now) from j) }
{
    trays[place_on(trays.len() as u8, from, j)]
}
