ghost use Rattle.std.specs.Prelude.{Some};
ghost use Rattle.trays.specs.Kinds.{kind_name};

use std::fmt;

/// The kind of a machine.
#[derive(Clone, Copy, PartialEq, Eq, Debug)]
pub enum Kind {
    /// a plain tower
    Plain,
    /// a sided tower
    Sided,
    /// a ring
    Ring,
}

impl fmt::Display for Kind {
    ghost output = { λ kind. Some (kind_name kind) };

    fn fmt<W: fmt::Write>(&self, f: &mut fmt::Formatter<W>) -> fmt::Result {
        f.write_str(match self {
            Kind::Plain => "plain",
            Kind::Sided => "sided",
            Kind::Ring => "ring",
        })
    }
}
