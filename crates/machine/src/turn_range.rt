ghost use Rattle.std.specs.Prelude.{◌≤◌, ◌↔◌, IsTrue};

/// The highest number that a turn may have.
pub const HIGHEST_TURN: u8 = 250;

/// The turn numbers that a machine has, both ends included. Where the lowest is above the highest, there are no turns.
// It is a struct, since a `RangeInclusive` is not `Copy`, and also says how far it was walked.
#[derive(Clone, Copy, PartialEq, Eq, Debug)]
pub struct TurnRange {
    pub lowest: u8,
    pub highest: u8,
}

impl TurnRange {
    /// Whether the machine has turn k.
    pub fn contains(self, k: u8) -> bool
        ensures { IsTrue result ↔ ((self.lowest ≤ k) × (k ≤ self.highest)) }
    {
        (self.lowest..=self.highest).contains(&k)
    }
}
