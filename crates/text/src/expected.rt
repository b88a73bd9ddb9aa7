ghost use Rattle.std.specs.Prelude.{◌≡◌, Some};
ghost use Rattle.text.specs.Expected.{after_count, after_kind, expected_text, may_end, may_stand};

use crate::word::Word;
use planner::{HIGHEST_GRANT_SUM, HIGHEST_LIMIT};
use std::fmt;
use trays::{Kind, MOST_TRAYS};

/// What may stand at a place of a line.
#[derive(Clone, Copy, PartialEq, Eq, Debug)]
pub enum Expected {
    /// the kind of machine
    Kind,
    /// a tray of a tower, `count`, `turns`, `dual`, `estimate` or `plan`
    Tray,
    /// a tray of a ring, `count` or `span`
    RingTray,
    /// the number after `count`
    CountNumber,
    /// `span`
    SpanWord,
    /// the number after `span`
    SpanNumber,
    /// `turns`, `dual`, `estimate` or `plan`
    ActionWord,
    /// a turn, or the end of the line
    Turn,
    /// `limit`, `looks`, or the end of the line
    LimitWord,
    /// the number after `limit`
    LimitNumber,
    /// `looks`, or the end of the line, after a limit
    LooksWord,
    /// the number after `looks`
    LooksNumber,
    /// the end of the line
    End,
}

impl Expected {
    // Whether the word may stand here.
    pub(crate) fn allows(self, word: Word) -> bool
        ensures { result ≡ may_stand self word }
    {
        match word {
            Word::Kind(_) => matches!(self, Expected::Kind),
            Word::Count => matches!(self, Expected::Tray | Expected::RingTray),
            Word::Span => matches!(self, Expected::RingTray | Expected::SpanWord),
            Word::Turns | Word::Dual | Word::Estimate | Word::Plan => matches!(
                self,
                Expected::Tray | Expected::ActionWord
            ),
            Word::Limit => matches!(self, Expected::LimitWord),
            Word::Looks => matches!(self, Expected::LimitWord | Expected::LooksWord),
            Word::Number(n) => match self {
                Expected::Tray
                | Expected::RingTray
                | Expected::CountNumber
                | Expected::SpanNumber
                | Expected::Turn
                | Expected::LimitNumber => true,
                Expected::LooksNumber => n >= 1,
                _ => false,
            },
            Word::Large(n) => {
                (256..=HIGHEST_GRANT_SUM).contains(&n) && matches!(self, Expected::LooksNumber)
            }
            Word::Away(n) => n < 128 && matches!(self, Expected::Tray | Expected::RingTray),
            Word::Other => false,
        }
    }

    // Whether the line may end here.
    pub(crate) fn may_end(self) -> bool
        ensures { result ≡ may_end self }
    {
        matches!(
            self,
            Expected::Turn | Expected::LimitWord | Expected::LooksWord | Expected::End
        )
    }

    // What is expected after the kind.
    pub(crate) fn after_kind(kind: Kind) -> Expected
        ensures { result ≡ after_kind kind }
    {
        match kind {
            Kind::Plain | Kind::Sided => Expected::Tray,
            Kind::Ring => Expected::RingTray,
        }
    }

    // What is expected after the count of the trays.
    pub(crate) fn after_count(kind: Kind) -> Expected
        ensures { result ≡ after_count kind }
    {
        match kind {
            Kind::Plain | Kind::Sided => Expected::ActionWord,
            Kind::Ring => Expected::SpanWord,
        }
    }
}

impl fmt::Display for Expected {
    ghost output = { λ expected. Some (expected_text expected) };

    fn fmt<W: fmt::Write>(&self, f: &mut fmt::Formatter<W>) -> fmt::Result {
        match self {
            Expected::Kind => f.write_str("`plain`, `sided` or `ring`"),
            Expected::Tray => f.write_str(
                "a tray (as 3, or -3 in a sided tower), `count`, `turns`, `dual`, `estimate` or `plan`",
            ),
            Expected::RingTray => f.write_str("a tray (as 3), `count` or `span`"),
            Expected::CountNumber => write!(f, "the number of trays, from 1 to {MOST_TRAYS}"),
            Expected::SpanWord => f.write_str("`span`"),
            Expected::SpanNumber => f.write_str("the span, from 2 to the number of trays"),
            Expected::ActionWord => f.write_str("`turns`, `dual`, `estimate` or `plan`"),
            Expected::Turn => f.write_str("a turn number or the end of the line"),
            Expected::LimitWord => f.write_str("`limit`, `looks` or the end of the line"),
            Expected::LimitNumber => write!(f, "the limit, from 0 to {HIGHEST_LIMIT}"),
            Expected::LooksWord => f.write_str("`looks` or the end of the line"),
            Expected::LooksNumber => {
                write!(f, "the number of looks, from 1 to {HIGHEST_GRANT_SUM}")
            }
            Expected::End => f.write_str("the end of the line"),
        }
    }
}
