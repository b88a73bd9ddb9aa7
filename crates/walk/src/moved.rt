// Whether a walk has moved by a turn, down or back.
#[derive(Clone, Copy, PartialEq, Eq, Debug)]
pub(crate) enum Moved {
    ByTurn,
    // there is none left to try, or to take back
    NoneLeft,
}
