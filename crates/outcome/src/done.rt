use crate::estimates::Estimates;
use crate::planned::Planned;
use machine::Trace;

/// What was done with a machine.
#[derive(Drop)]
pub enum Done<M> {
    // The turns stand apart from the states, since there are more of them where one is refused: a list of pairs would be no plainer.
    /// these turns were made, as far as it has them
    Followed { turns: Vec<u8>, trace: Trace<M> },
    /// its dual was asked for
    Mirrored(M),
    /// it was asked how many turns it still needs
    Estimated(Estimates),
    /// a plan within this limit was asked for
    Planned { limit: u8, planned: Planned<M> },
}
