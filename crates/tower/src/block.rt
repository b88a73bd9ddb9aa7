// The block that a turn turns over: the trays from index `from` on and before index `to`, counted round in a ring. Where both are the same, it has all trays.
#[derive(Clone, Copy)]
pub(crate) struct Block {
    from: usize,
    to: usize,
}

impl Block {
    // The block of turn k: the first k trays of a tower, or in a ring of n as many as its span, from place k on.
    pub(crate) fn of(k: u8, span: Option<u8>, n: usize) -> Block {
        let Some(span) = span else {
            let to = usize::from(k);
            return Block { from: 0, to };
        };
        let from = usize::from(k).saturating_sub(1);
        let to = from + usize::from(span);
        Block {
            from,
            to: if to > n { to - n } else { to },
        }
    }

    // What is drawn before the tray at index i.
    pub(crate) fn mark(self, i: usize) -> char {
        match (i == self.from, i == self.to) {
            (true, true) => '|',
            (true, false) => '[',
            (false, true) => ']',
            (false, false) => ' ',
        }
    }
}
