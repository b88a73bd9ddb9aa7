/// What is to be done with the machine.
#[derive(Drop)]
pub enum Action {
    /// make these turns
    Turns(Vec<u8>),
    /// show its dual
    Dual,
    /// estimate the turns that it still needs
    Estimate,
    /// find the fewest turns that bring it home, if no more than this limit do, by at most so many looks
    Plan { limit: u8, looks: u32 },
}
