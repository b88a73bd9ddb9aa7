ghost use Rattle.std.specs.Prelude.{ℕ, ◌<◌, Some, MatchOption};
ghost use Rattle.text.specs.Words.{IsAway, IsUnsigned, Spells};

use trays::Kind;

/// A word of a line.
#[derive(Clone, Copy, PartialEq, Eq, Debug)]
pub enum Word {
    Kind(Kind),
    Count,
    Span,
    Turns,
    Dual,
    Estimate,
    Plan,
    Limit,
    Looks,
    /// a decimal number from 0 to 255
    Number(u8),
    /// a decimal number from 256 to 4,294,967,295
    Large(u32),
    /// a minus sign and a decimal number from 0 to 127
    Away(u8),
    /// any other text
    Other,
}

/// What the text means as a word of a line.
impl From<&str> for Word {
    ghost from_gives = { λ text word. Spells text.now word };

    fn from(text: &str) -> Word {
        // A `FromStr` of `Kind` would be no plainer: its error is one that nobody reads.
        match text {
            "plain" => Word::Kind(Kind::Plain),
            "sided" => Word::Kind(Kind::Sided),
            "ring" => Word::Kind(Kind::Ring),
            "count" => Word::Count,
            "span" => Word::Span,
            "turns" => Word::Turns,
            "dual" => Word::Dual,
            "estimate" => Word::Estimate,
            "plan" => Word::Plan,
            "limit" => Word::Limit,
            "looks" => Word::Looks,
            _ => match text.parse::<u32>() {
                Ok(n) => u8::try_from(n).map_or(Word::Large(n), Word::Number),
                Err(_) => away(text).map_or(Word::Other, Word::Away),
            },
        }
    }
}

// The number from 0 to 127 that is written by digits right after a minus sign.
fn away(text: &str) -> Option<u8>
    ensures { MatchOption result ((n : ℕ) → ¬ IsAway text.now n) (λ n. IsAway text.now n) }
{
    text.strip_prefix('-')
        .and_then(unsigned)
        .filter(|n| *n < 128)
}

// The number that is written by digits with no sign before them.
fn unsigned(text: &str) -> Option<u8>
    ensures { MatchOption result
        ((n : ℕ) → n < 256 → ¬ IsUnsigned text.now n)
        (λ n. IsUnsigned text.now n) }
{
    text.parse().ok().filter(|_| !text.starts_with('+'))
}
