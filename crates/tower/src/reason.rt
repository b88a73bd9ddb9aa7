use machine::Fault;
use std::fmt;
use trays::{Kind, MOST_TRAYS};

// Why a machine of this kind refused to be set, or to make a turn, and what it accepts: in the words of the kind where they differ, else in those of the fault.
#[derive(Clone, Copy)]
pub(crate) struct Reason {
    pub(crate) kind: Kind,
    pub(crate) fault: Fault,
}

impl fmt::Display for Reason {
    fn fmt<W: fmt::Write>(&self, f: &mut fmt::Formatter<W>) -> fmt::Result {
        match (self.fault, self.kind) {
            (Fault::TrayCount, Kind::Ring) => {
                write!(f, "the number of trays must be from 4 to {MOST_TRAYS}")
            }
            (Fault::TrayCount, _) => {
                write!(f, "the number of trays must be from 1 to {MOST_TRAYS}")
            }
            (Fault::TrayNumber(_), Kind::Sided) => {
                f.write_str(
                    "its number, without a minus sign, must be from 1 to the number of trays",
                )
            }
            (Fault::NoSuchTurn, Kind::Ring) => f.write_str("the ring does not have this turn"),
            (Fault::NoSuchTurn, _) => f.write_str("the tower does not have this turn"),
            (fault, _) => write!(f, "{fault}"),
        }
    }
}
