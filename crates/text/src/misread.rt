ghost use Rattle.std.specs.Prelude.{◌≡◌};
ghost use Rattle.text.specs.declared.misread.Misread.TheVariants.{NoMemory};

use crate::expected::Expected;
use std::alloc::AllocError;
use std::error::Error;
use std::fmt;

/// Why a line is not understood.
#[derive(Clone, Copy, PartialEq, Eq, Debug)]
pub enum Misread {
    /// the word at this index, from 0, may not stand there, or the line ends there
    Unexpected { at: usize, expected: Expected },
    NoMemory,
}

impl fmt::Display for Misread {
    fn fmt<W: fmt::Write>(&self, f: &mut fmt::Formatter<W>) -> fmt::Result {
        match self {
            Misread::Unexpected { at, expected } => {
                let place = at.saturating_add(1);
                write!(f, "not understood at word {place}: expected {expected}")
            }
            Misread::NoMemory => f.write_str("out of memory"),
        }
    }
}

impl Error for Misread {}

impl From<AllocError> for Misread {
    ghost from_gives = { λ _ m. m ≡ NoMemory };

    fn from(_e: AllocError) -> Misread {
        Self::NoMemory
    }
}
