/// What a call of the console came to, as C has it.
#[repr(C)]
#[derive(Clone, Copy)]
pub struct ConsoleRan {
    /// The place where the next command begins.
    pub next: usize,
    /// How many bytes the reply has.
    pub count: usize,
}
