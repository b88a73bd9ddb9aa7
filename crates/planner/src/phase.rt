// What a planner is doing.
#[derive(Clone, Copy, PartialEq, Eq, Debug)]
pub(crate) enum Phase {
    // it has no task
    Empty,
    // its search is under way
    AtWork,
    // its search has found a plan
    Found,
    // its search has ended, and there is no plan within the limit
    NoPlan,
}
