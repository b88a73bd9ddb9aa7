use std::fmt;

// Trays as they are printed, with a space before each.
#[derive(Clone, Copy)]
pub(crate) struct Listed<'a, T>(pub(crate) &'a [T]);

impl<'a, T: fmt::Display> fmt::Display for Listed<'a, T> {
    fn fmt<W: fmt::Write>(&self, f: &mut fmt::Formatter<W>) -> fmt::Result {
        for tray in self.0 {
            write!(f, " {tray}")?;
        }
        Ok(())
    }
}
