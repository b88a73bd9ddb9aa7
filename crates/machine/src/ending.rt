use crate::fault::Fault;

/// How a list of turns ended.
#[derive(Clone, Copy, PartialEq, Eq, Debug)]
pub enum Ending {
    /// All were made, and the machine is home.
    Home,
    /// All were made, and the machine is not home.
    NotHome,
    /// The machine does not have the next turn.
    Refused(Fault),
}
