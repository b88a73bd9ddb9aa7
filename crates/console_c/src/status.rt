ghost use Rattle.std.specs.Prelude.{◌≡◌};
ghost use Rattle.console_c.specs.Statuses.{status_number};

use tape::Fault;

/// How a call from C ends.
#[derive(Clone, Copy, PartialEq, Eq, Debug)]
pub enum Status {
    /// 0
    Done,
    /// The number of the fault, 1 to 3: the console refuses the call as a whole.
    Refused(Fault),
    /// 21: the memory holds no console.
    NoConsole,
    /// 22: the replies do not fit in the room.
    NoRoom,
}

impl Status {
    /// The number that C is given.
    pub fn number(self) -> u8
        ensures { result ≡ status_number self }
    {
        match self {
            Status::Done => 0,
            Status::Refused(fault) => fault.number(),
            Status::NoConsole => 21,
            Status::NoRoom => 22,
        }
    }
}
