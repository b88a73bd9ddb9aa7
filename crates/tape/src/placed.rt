ghost use Rattle.std.specs.Prelude.{◌≡◌, ◌+◌, min};
ghost use Rattle.tape.specs.Commands.{width};
ghost use Rattle.tape.specs.Places.{fault_at, grant_at, refused_for, trays_at};

use crate::command::Command;
use crate::fault::Fault;
use crate::refusal::Refusal;

/// A command and the place on the tape where it begins, from 0.
#[derive(Clone, Copy, PartialEq, Eq, Debug)]
pub struct Placed<'a> {
    pub command: Command<'a>,
    pub place: u16,
}

impl Placed<'_> {
    /// The place after the command and its operands.
    pub fn next(&self) -> usize
        ensures { result ≡ self.now.place + 1 + width self.now.command }
    {
        usize::from(self.place) + 1 + self.command.width()
    }

    /// The refusal of this command, with the place of the byte at fault.
    pub fn refused(&self, fault: Fault) -> Refusal
        ensures { result ≡ refused_for self.now fault }
    {
        Refusal {
            fault,
            place: self.place.saturating_add(self.command.fault_at(fault)),
        }
    }
}

impl Command<'_> {
    // How far after the letter the byte at fault stands.
    fn fault_at(&self, fault: Fault) -> u16
        ensures { result ≡ min 65535 (fault_at self.now fault) }
    {
        match fault {
            Fault::Machine(machine::Fault::TrayCount) => 2,
            Fault::Machine(machine::Fault::Span) => 3,
            Fault::Machine(
                machine::Fault::TrayNumber(i)
                | machine::Fault::TrayRepeated(i)
                | machine::Fault::TrayBeyond(i),
            ) => u16::try_from(i)
                .unwrap_or(u16::MAX)
                .saturating_add(self.trays_at()),
            Fault::Planner(planner::Fault::Limit) => 1,
            Fault::Planner(planner::Fault::Grant | planner::Fault::GrantSum) => self.grant_at(),
            _ => 0,
        }
    }

    // How far after the letter the first tray byte of a load stands.
    fn trays_at(&self) -> u16
        ensures { result ≡ trays_at self.now }
    {
        match self {
            Command::Ring(_) => 4,
            _ => 3,
        }
    }

    // How far after the letter the first grant byte stands; where there is none, the letter counts.
    fn grant_at(&self) -> u16
        ensures { result ≡ grant_at self.now }
    {
        match self {
            Command::Work(_) => 1,
            _ => 0,
        }
    }
}
