/// Where a walk is once it has gone on.
#[derive(Clone, Copy, PartialEq, Eq, Debug)]
pub enum Step {
    /// at a state that is yet to be looked at
    Reached,
    /// back at its start, where no turn is left to try
    RoundOver,
}
