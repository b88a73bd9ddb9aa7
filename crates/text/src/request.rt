ghost use Rattle.std.specs.Prelude.{◌≡◌, ℕ, ◌<◌, slice_index, MatchResult};
ghost use Rattle.trays.specs.declared.arrangement.TheConstants.{MOST_TRAYS};
ghost use Rattle.text.specs.Lines.{Misreads, OneFault, OneReading, OneRequest, Written, asked};
ghost use Rattle.text.specs.TrayCounts.{tray_count};

use crate::action::Action;
use crate::misread::Misread;
use crate::reader::Reader;
use crate::word::Word;
use std::alloc::Global;
use std::array;
use trays::{Kind, MOST_TRAYS};

// A span in the case of a ring would be no plainer: it would be a second enum of the kinds.
/// What a line asks for: the kind of machine, its trays in their order, their count and the span where the line gives them, and what to do.
#[derive(Drop)]
pub struct Request {
    pub kind: Kind,
    pub trays: Vec<u8>,
    pub count: Option<u8>,
    pub span: Option<u8>,
    pub action: Action,
}

impl Request {
    /// The request that the words of a line make.
    pub fn parse(heap: Global, words: &[Word]) -> Result<Request, Misread>
        ensures read { MatchResult result
            (λ q. Written words.now q.kind q.trays.items q.count q.span (asked q.action))
            (λ m. Misreads words.now m) }
        ensures once { OneReading }
        ensures request { OneRequest }
        ensures fault { OneFault }
    {
        let mut reader = Reader::new(heap);
        reader.read(words)?;
        Ok(reader.finish())
    }

    /// The number of trays: as counted, or as the line says where it has no more than `MOST_TRAYS`.
    pub fn tray_count(&self) -> u8
        ensures { result ≡ tray_count self.now.trays.items self.now.count }
    {
        let counted = u8::try_from(self.trays.len()).unwrap_or(u8::MAX);
        if usize::from(counted) > MOST_TRAYS {
            counted
        } else {
            self.count.unwrap_or(counted)
        }
    }

    /// The first trays as bytes, as many as a machine has places, with 0 after the last.
    pub fn tray_bytes(&self) -> [u8; MOST_TRAYS]
        ensures { (k : ℕ) → k < MOST_TRAYS →
            slice_index result k ≡ slice_index self.now.trays.items k }
    {
        array::from_fn(|k| self.trays.get(k).copied().unwrap_or(0))
    }
}
