ghost use Rattle.std.specs.Prelude.{◌≡◌};

use std::error::Error;
use std::fmt;

/// Why a machine refuses to be set or to turn. An index counts the 32 tray bytes from 0.
#[derive(Clone, Copy, PartialEq, Eq, Debug)]
pub enum Fault {
    /// The number of trays is below the kind's least or above 32.
    TrayCount,
    /// The span of a ring is below 2 or above the number of trays.
    Span,
    /// Among the first N trays is one whose number is not from 1 to N.
    TrayNumber(usize),
    /// A tray number stands at an earlier place too.
    TrayRepeated(usize),
    /// A byte past the N trays is not 0.
    TrayBeyond(usize),
    /// The machine does not have this turn.
    NoSuchTurn,
}

impl Fault {
    ghost use Rattle.machine.specs.FaultEntry.{fault_entry};

    /// The number of the fault, which is told outside.
    pub fn number(self) -> u8
        ensures { result ≡ (fault_entry self).number }
    {
        match self {
            Fault::TrayCount => 6,
            Fault::Span => 7,
            Fault::TrayNumber(_) => 8,
            Fault::TrayRepeated(_) => 9,
            Fault::TrayBeyond(_) => 10,
            Fault::NoSuchTurn => 11,
        }
    }

    /// The index of the tray byte at fault, where one byte is.
    pub fn index(self) -> Option<usize>
        ensures { result ≡ (fault_entry self).index }
    {
        match self {
            Fault::TrayNumber(i) | Fault::TrayRepeated(i) | Fault::TrayBeyond(i) => Some(i),
            Fault::TrayCount | Fault::Span | Fault::NoSuchTurn => None,
        }
    }
}

impl fmt::Display for Fault {
    fn fmt<W: fmt::Write>(&self, f: &mut fmt::Formatter<W>) -> fmt::Result {
        f.write_str(match self {
            Fault::TrayCount => "the number of trays must be from the least of its kind to 32",
            Fault::Span => "the span must be from 2 to the number of trays",
            Fault::TrayNumber(_) => "it must be from 1 to the number of trays",
            Fault::TrayRepeated(_) => {
                "its number stands at an earlier place too, and may stand once"
            }
            Fault::TrayBeyond(_) => "it stands after the last tray, where only 0 may stand",
            Fault::NoSuchTurn => "the machine does not have this turn",
        })
    }
}

impl Error for Fault {}
