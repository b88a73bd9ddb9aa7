use machine::TurnRange;
use std::fmt;

// The turns that a machine has, after a turn that it does not have.
#[derive(Clone, Copy)]
pub(crate) struct OtherTurns(pub(crate) TurnRange);

impl fmt::Display for OtherTurns {
    fn fmt<W: fmt::Write>(&self, f: &mut fmt::Formatter<W>) -> fmt::Result {
        let TurnRange { lowest, highest } = self.0;
        if lowest <= highest {
            write!(f, ", but those from {lowest} to {highest}")
        } else {
            f.write_str(", nor any other")
        }
    }
}
