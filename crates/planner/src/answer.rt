/// What a planner answers to a call that it accepts. Looks are counted since the load.
#[derive(Clone, Copy, PartialEq, Eq, Debug)]
pub enum Answer {
    /// to a load or a drop
    Accepted,
    /// the search has not ended, after these looks
    Working { looks: u32 },
    /// a plan of this length was found, after these looks
    Found { length: u8, looks: u32 },
    /// there is no plan within the limit, after these looks
    NoPlan { looks: u32 },
    /// a plan of this length stands in the sheet
    Fetched { length: u8 },
}
