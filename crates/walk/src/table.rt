ghost use Rattle.std.specs.Prelude.{◌≡◌, ◌<◌, replicate, slice_get, Some};
ghost use Rattle.std.specs.Borrow.{sem};
ghost use Rattle.walk.specs.declared.table.TheConstants.{DEPTHS};

use crate::depth_record::DepthRecord;
use search::HIGHEST_LIMIT;

// Depths go from 0 to one more than the highest limit: a state that deep is looked at, but never continued.
pub(crate) const DEPTHS: usize = HIGHEST_LIMIT as usize + 2;

// A record for each depth.
#[derive(Clone, Copy)]
pub(crate) struct Table {
    pub(crate) records: [DepthRecord; DEPTHS],
}

impl Table {
    ghost use Rattle.walk.specs.Tables.{LendsRecord, blank};

    pub(crate) fn new() -> Table
        ensures { result.records ≡ replicate DEPTHS blank }
    {
        let records = [DepthRecord { led: 0, tried: 0 }; DEPTHS];
        Table { records }
    }

    // The record of a depth, to be changed. The proof is by hand, since there is no generated one for a function that lends an element of an array.
    pub(crate) fn record(&mut self, depth: usize) -> &mut DepthRecord
        requires { depth < DEPTHS }
        ensures* writes_back { sem 𝓛 (LendsRecord self.entry depth result) }
        ensures value { slice_get self.old.records depth ≡ Some result.now }
    {
        &mut self.records[depth]
    }
}
