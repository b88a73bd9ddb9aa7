/// What a call of the console came to.
#[derive(Clone, Copy, PartialEq, Eq, Debug)]
pub struct Ran {
    /// where the next command begins
    pub next: usize,
    /// how many bytes the reply has
    pub count: usize,
}
