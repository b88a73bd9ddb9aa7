ghost use Rattle.std.specs.Prelude.{◌≡◌};
ghost use Rattle.outcome.specs.Failures.{misread_as};
ghost use Rattle.outcome.specs.declared.failure.Failure.TheVariants.{NoMemory};

use machine::Fault;
use std::alloc::AllocError;
use std::error::Error;
use std::fmt;
use text::{Expected, Misread};
use trays::Kind;

/// Why nothing was done for a line.
#[derive(Clone, Copy, PartialEq, Eq, Debug)]
pub enum Failure {
    /// the word at this index, from 0, may not stand there, or the line ends there
    Unexpected { at: usize, expected: Expected },
    /// no machine of this kind was set
    Refused { kind: Kind, fault: Fault },
    NoMemory,
}

impl fmt::Display for Failure {
    fn fmt<W: fmt::Write>(&self, f: &mut fmt::Formatter<W>) -> fmt::Result {
        match *self {
            Failure::Unexpected { at, expected } => {
                write!(f, "{}", Misread::Unexpected { at, expected })
            }
            Failure::Refused { fault, .. } => {
                write!(f, "refused {}", fault.number())?;
                if let Some(at) = fault.index() {
                    write!(f, " at place {}", at.saturating_add(1))?;
                }
                write!(f, ": {fault}")
            }
            Failure::NoMemory => write!(f, "{}", Misread::NoMemory),
        }
    }
}

impl Error for Failure {}

impl From<AllocError> for Failure {
    ghost from_gives = { λ _ f. f ≡ NoMemory };

    fn from(_e: AllocError) -> Failure {
        Self::NoMemory
    }
}

impl From<Misread> for Failure {
    ghost from_gives = { λ misread f. f ≡ misread_as misread };

    fn from(misread: Misread) -> Failure {
        match misread {
            Misread::Unexpected { at, expected } => Self::Unexpected { at, expected },
            Misread::NoMemory => Self::NoMemory,
        }
    }
}
