use std::env::{Env, FillError};

// The environment with the arguments alone: the program's name, which is the first there, is left out. It need not be text, and is not read.
#[derive(Clone, Copy)]
pub(crate) struct AfterName<'a>(pub(crate) &'a HostRuntime);

impl<'a> Env for AfterName<'a> {
    fn arg(&self, i: usize, buf: &mut [u8]) -> Result<usize, FillError> {
        self.0.arg(i.saturating_add(1), buf)
    }

    fn var(&self, name: &str, buf: &mut [u8]) -> Result<usize, FillError> {
        self.0.var(name, buf)
    }

    fn var_at(&self, i: usize, buf: &mut [u8]) -> Result<usize, FillError> {
        self.0.var_at(i, buf)
    }
}
