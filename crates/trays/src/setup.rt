ghost use Rattle.std.specs.Prelude.{◌≡◌};

use crate::arrangement::MOST_TRAYS;

/// What a machine is set from. All tray bytes are given, since those past the first n are checked too.
#[derive(Clone, Copy, PartialEq, Eq, Debug)]
pub struct Setup<S> {
    /// the number of trays
    pub n: u8,
    /// a span where the kind has one
    pub span: S,
    /// a byte for each place
    pub bytes: [u8; MOST_TRAYS],
}

impl<S> Setup<S> {
    /// The same with this span.
    pub fn with_span<R>(&self, span: R) -> Setup<R>
        ensures { result ≡ record { n = self.now.n; span = span; bytes = self.now.bytes } }
    {
        Setup {
            n: self.n,
            span,
            bytes: self.bytes,
        }
    }
}
