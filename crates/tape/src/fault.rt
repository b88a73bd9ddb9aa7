ghost use Rattle.std.specs.Prelude.{◌≡◌};
ghost use Rattle.tape.specs.Replies.{fault_code};
ghost use Rattle.tape.specs.declared.fault.Fault.TheVariants.{Machine, Planner};

use std::error::Error;
use std::fmt;

/// Why the console refuses a call or a command.
#[derive(Clone, Copy, PartialEq, Eq, Debug)]
pub enum Fault {
    /// 1: the tape is longer than 4,096 bytes
    TapeLength,
    /// 2: the place is past the end of the tape
    Place,
    /// 3: there are fewer than 66 bytes of room for a reply
    ReplyRoom,
    /// 4: no command has this letter
    UnknownCommand,
    /// 5: the tape ends before the operands do
    OperandsCut,
    /// 6 to 11
    Machine(machine::Fault),
    /// 12 to 18
    Planner(planner::Fault),
}

impl Fault {
    /// The layer byte, which says which part refuses.
    pub fn layer(self) -> u8
        ensures { result ≡ (fault_code self).layer }
    {
        match self {
            Fault::TapeLength | Fault::Place | Fault::ReplyRoom => 1,
            Fault::UnknownCommand | Fault::OperandsCut => 2,
            Fault::Machine(_) => 3,
            Fault::Planner(_) => 4,
        }
    }

    /// The number of the refusal.
    pub fn number(self) -> u8
        ensures { result ≡ (fault_code self).number }
    {
        match self {
            Fault::TapeLength => 1,
            Fault::Place => 2,
            Fault::ReplyRoom => 3,
            Fault::UnknownCommand => 4,
            Fault::OperandsCut => 5,
            Fault::Machine(fault) => fault.number(),
            Fault::Planner(fault) => fault.number(),
        }
    }
}

impl fmt::Display for Fault {
    fn fmt<W: fmt::Write>(&self, f: &mut fmt::Formatter<W>) -> fmt::Result {
        match self {
            Fault::TapeLength => f.write_str("the tape has too many bytes"),
            Fault::Place => f.write_str("the place is beyond the end of the tape"),
            Fault::ReplyRoom => f.write_str("there is too little room for a reply"),
            Fault::UnknownCommand => f.write_str("no command has this letter"),
            Fault::OperandsCut => f.write_str("the tape ends before the operands do"),
            Fault::Machine(fault) => write!(f, "{fault}"),
            Fault::Planner(fault) => write!(f, "{fault}"),
        }
    }
}

impl Error for Fault {}

impl From<machine::Fault> for Fault {
    ghost from_gives = { λ f fault. fault ≡ Machine f };

    fn from(f: machine::Fault) -> Fault {
        Fault::Machine(f)
    }
}

impl From<planner::Fault> for Fault {
    ghost from_gives = { λ f fault. fault ≡ Planner f };

    fn from(f: planner::Fault) -> Fault {
        Fault::Planner(f)
    }
}
