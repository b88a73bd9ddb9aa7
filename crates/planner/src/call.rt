/// What a planner is asked.
#[derive(Clone, Copy, PartialEq, Eq, Debug)]
pub enum Call<M> {
    /// to search from this machine for a plan of at most so many turns
    Load { machine: M, limit: u8 },
    /// to make so many looks, or fewer where the search ends
    Work { grant: u32 },
    /// to write the plan into the sheet
    Fetch,
    /// to give the task up
    Drop,
}
