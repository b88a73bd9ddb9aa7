use crate::block::Block;
use std::fmt;
use trays::Tray;

// Trays in columns of this width, a minus sign before one on its other side, and brackets round a block.
#[derive(Clone, Copy)]
pub(crate) struct Row<'a, T> {
    pub(crate) trays: &'a [T],
    pub(crate) width: usize,
    pub(crate) block: Option<Block>,
}

impl<'a, T> Row<'a, T> {
    // What is drawn before the tray at index i, or after the last.
    fn mark(&self, i: usize) -> char {
        self.block.map_or(' ', |block| block.mark(i))
    }
}

impl<'a, T: Tray> fmt::Display for Row<'a, T> {
    fn fmt<W: fmt::Write>(&self, f: &mut fmt::Formatter<W>) -> fmt::Result {
        let width = self.width;
        for (i, tray) in self.trays.iter().enumerate() {
            let mark = self.mark(i);
            let signed = signed(tray);
            write!(f, "{mark}{signed:>width$}")?;
        }
        if self.mark(self.trays.len()) == ']' {
            f.write_str("]")?;
        }
        Ok(())
    }
}

// The number of a tray, below 0 where it is on its other side.
fn signed<T: Tray>(tray: &T) -> i16 {
    let number = tray.number();
    if tray.stands(usize::from(number)) {
        i16::from(number)
    } else {
        -i16::from(number)
    }
}
