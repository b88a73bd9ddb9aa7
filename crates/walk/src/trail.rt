ghost use Rattle.std.specs.Prelude.{◌≡◌, ◌<◌, ◌≤◌, ◌∷◌, [], length, reverse, take};
ghost use Rattle.search.specs.declared.limit.TheConstants.{HIGHEST_LIMIT};
ghost use Rattle.walk.specs.Records.{Linked, first_or_none};
ghost use Rattle.walk.specs.Sheets.{padded};
ghost use Rattle.walk.specs.declared.sheet.TheConstants.{SHEET_PLACES};
ghost use Rattle.walk.specs.declared.table.TheConstants.{DEPTHS};

use crate::depth_record::DepthRecord;
use crate::sheet::{SHEET_PLACES, Sheet};
use crate::table::Table;

// The turns made from the first state on, in the records of the depths.
#[derive(Clone, Copy)]
pub(crate) struct Trail {
    table: Table,
    depth: usize,
    ghost full: { length table.records ≡ DEPTHS },
    ghost room: { depth < DEPTHS },
    ghost linked: { Linked table.records depth },
}

impl Trail {
    ghost use Rattle.walk.specs.Trails.{made, tried, Popped};

    // No turn is made.
    pub(crate) fn new() -> Trail
        ensures made { made result ≡ [] }
        ensures tried { tried result ≡ 0 }
    {
        let table = Table::new();
        Trail { table, depth: 0 }
    }

    pub(crate) fn clear(&mut self)
        ensures made { made self.new ≡ [] }
        ensures tried { tried self.new ≡ 0 }
    {
        self.depth = 0;
        *self.table.record(0) = DepthRecord { led: 0, tried: 0 };
    }

    #[tactic(auto, using(crate::proofs::Trails::length_turns_to))]
    pub(crate) fn depth(&self) -> usize
        ensures depth { result ≡ length (made self.now) }
        ensures room { result < DEPTHS }
    {
        self.depth
    }

    // One turn more, which was not tried yet.
    pub(crate) fn push(&mut self, k: u8)
        requires { length (made self.old) ≤ HIGHEST_LIMIT }
        ensures made { made self.new ≡ k ∷ made self.old }
        ensures tried { tried self.new ≡ 0 }
    {
        let here = self.table.record(self.depth);
        here.tried = k;
        self.depth += 1;
        *self.table.record(self.depth) = DepthRecord { led: k, tried: 0 };
    }

    // Takes back the turn made last, which is then the one tried last; or none where no turn is made.
    pub(crate) fn pop(&mut self) -> Option<u8>
        ensures { Popped self.old result self.new }
    {
        self.depth = self.depth.checked_sub(1)?;
        Some(self.table.records[self.depth].tried)
    }

    // The turn that led here, and the one tried last from here.
    pub(crate) fn record(&self) -> DepthRecord
        ensures led { result.led ≡ first_or_none (made self.now) }
        ensures tried { result.tried ≡ tried self.now }
    {
        self.table.records[self.depth]
    }

    // Writes the turns made in their order, as far as there are places, and 0 after the last.
    pub(crate) fn write(&self, sheet: &mut Sheet)
        ensures { sheet.new ≡ padded (take SHEET_PLACES (reverse (made self.now))) }
    {
        *sheet = [0; SHEET_PLACES];
        for depth in 0..self.depth.min(sheet.len()) {
            sheet[depth] = self.table.records[depth].tried;
        }
    }
}
