// What a look came to.
#[derive(Clone, Copy, PartialEq, Eq, Debug)]
pub(crate) enum Seen {
    // the search goes on
    GoesOn,
    // the state is home, and the turns that led there are the plan
    Home,
    // the search has ended without a plan
    Ended,
}
