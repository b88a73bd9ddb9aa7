ghost use Rattle.std.specs.Prelude.{◌≡◌, ◌<◌, ◌==◌, ◌∷◌, ◌++◌, length, drop, MatchResult};
ghost use Rattle.tape.specs.Commands.{Reads, StartsWith, Unreadable, width};
ghost use Rattle.tape.specs.declared.fault.Fault.TheVariants.{OperandsCut};

use crate::fault::Fault;
use machine::Machine;
use ring::TrayRing;
use towers::{PlainTower, SidedTower};

/// A command with its operand bytes, as they lie on the tape.
#[derive(Clone, Copy, PartialEq, Eq, Debug)]
pub enum Command<'a> {
    /// a load of a plain tower: the limit, N and 32 trays
    Plain(&'a [u8; 34]),
    /// a load of a sided tower: the same
    Sided(&'a [u8; 34]),
    /// a load of a ring: the limit, N, K and 32 trays
    Ring(&'a [u8; 35]),
    /// work, with a grant of four bytes
    Work(&'a [u8; 4]),
    /// work, with the grant that needs no operand
    Go,
    /// fetch
    Fetch,
    /// drop
    Drop,
}

impl<'a> Command<'a> {
    /// The command with which the tape begins, or none at its end.
    pub fn read(tape: &'a [u8]) -> Result<Option<Command<'a>>, Fault>
        ensures { Reads tape.now result }
    {
        match tape.split_first() {
            None => Ok(None),
            Some((letter, rest)) => Command::after(*letter, rest).map(Some),
        }
    }

    // The command of this letter, with its operands out of what follows.
    fn after(letter: u8, rest: &'a [u8]) -> Result<Command<'a>, Fault>
        ensures { MatchResult result (λ c. StartsWith (letter ∷ rest.now) c) (λ f. Unreadable (letter ∷ rest.now) f) }
    {
        match letter {
            b if loads::<PlainTower>(b) => Ok(Command::Plain(operands(rest)?)),
            b if loads::<SidedTower>(b) => Ok(Command::Sided(operands(rest)?)),
            b if loads::<TrayRing>(b) => Ok(Command::Ring(operands(rest)?)),
            b'W' => Ok(Command::Work(operands(rest)?)),
            b'G' => Ok(Command::Go),
            b'F' => Ok(Command::Fetch),
            b'D' => Ok(Command::Drop),
            _ => Err(Fault::UnknownCommand),
        }
    }

    /// How many operand bytes it has.
    pub fn width(&self) -> usize
        ensures { result ≡ width self.now }
    {
        match self {
            Command::Plain(_) | Command::Sided(_) => 34,
            Command::Ring(_) => 35,
            Command::Work(_) => 4,
            Command::Go | Command::Fetch | Command::Drop => 0,
        }
    }
}

// Whether this letter loads a machine of this kind.
fn loads<M: Machine>(letter: u8) -> bool
    ensures { result ≡ (letter == M.LETTER) }
{
    letter == M::LETTER
}

// The first bytes of what follows a letter, as many as its command asks for.
fn operands<const W: usize>(rest: &[u8]) -> Result<&[u8; W], Fault>
    ensures { MatchResult result (λ bytes. (length bytes.now ≡ W) × (rest.now ≡ bytes.now ++ drop W rest.now)) (λ f. (f ≡ OperandsCut) × (length rest.now < W)) }
{
    rest.first_chunk().ok_or(Fault::OperandsCut)
}
