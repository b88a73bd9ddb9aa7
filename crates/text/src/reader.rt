ghost use Rattle.std.specs.Prelude.{◌≡◌, ◌≤◌, List, [], IfErr, IsTrue, OnOk};
ghost use Rattle.planner.specs.declared.planner.TheConstants.{HIGHEST_GRANT_SUM};
ghost use Rattle.text.specs.declared.expected.Expected.TheVariants.{End, LimitNumber, LooksNumber, Turn};
ghost use Rattle.text.specs.declared.word.Word.TheVariants.{Away, Number};
ghost use Rattle.text.specs.Expected.{is_listed, may_end, may_stand};
ghost use Rattle.text.specs.Lines.{Misreads, number_word};
ghost use Rattle.text.specs.Readers.{Asks, HasRead, IsRead, Refuses, Stepped};

use crate::action::Action;
use crate::expected::Expected;
use crate::misread::Misread;
use crate::request::Request;
use crate::word::Word;
use planner::{HIGHEST_GRANT_SUM, HIGHEST_LIMIT};
use std::alloc::{AllocError, Global};
use trays::Kind;

// A line half read: what has been read, and what is expected next. Before the first word the kind says nothing, and before its word is read the action is to make no turns; an `Option` of either would be no plainer, since `finish` would have to open it where it is always there.
#[derive(Drop)]
pub(crate) struct Reader {
    kind: Kind,
    trays: Vec<u8>,
    count: Option<u8>,
    span: Option<u8>,
    action: Action,
    expected: Expected,
}

impl Reader {
    pub(crate) fn new(heap: Global) -> Reader
        ensures { HasRead result [] }
    {
        Reader {
            kind: Kind::Plain,
            trays: Vec::new(heap),
            count: None,
            span: None,
            action: Action::Turns(Vec::new(heap)),
            expected: Expected::Kind,
        }
    }

    // Takes all the words and the end of the line, or answers the first of these that may not stand there.
    pub(crate) fn read(&mut self, words: &[Word]) -> Result<(), Misread>
        requires { HasRead self.old [] }
        ensures ok { OnOk result (IsRead words.now self.new) }
        ensures err { IfErr result (Misreads words.now) }
    {
        for (at, word) in words.iter().enumerate() {
            self.step(at, *word)?;
        }
        if !self.expected.may_end() {
            return Err(Misread::Unexpected {
                at: words.len(),
                expected: self.expected,
            });
        }
        Ok(())
    }

    // Takes the next word, which is at this index, or answers that it may not stand there.
    fn step(&mut self, at: usize, word: Word) -> Result<(), Misread>
        ensures ok { OnOk result (Stepped self.old word self.new) }
        ensures err { IfErr result (Refuses self.old at word self.new) }
    {
        if !self.expected.allows(word) {
            return Err(Misread::Unexpected {
                at,
                expected: self.expected,
            });
        }
        match word {
            Word::Kind(kind) => {
                self.kind = kind;
                self.expected = Expected::after_kind(kind);
            }
            Word::Count => self.expected = Expected::CountNumber,
            Word::Span => self.expected = Expected::SpanNumber,
            Word::Turns => self.expected = Expected::Turn,
            Word::Dual => self.end_with(Action::Dual),
            Word::Estimate => self.end_with(Action::Estimate),
            Word::Plan => {
                self.action = Action::Plan {
                    limit: HIGHEST_LIMIT,
                    looks: HIGHEST_GRANT_SUM,
                };
                self.expected = Expected::LimitWord;
            }
            Word::Limit => self.expected = Expected::LimitNumber,
            Word::Looks => self.expected = Expected::LooksNumber,
            Word::Number(n) => self.take(n)?,
            Word::Large(n) => self.take_looks(n),
            Word::Away(n) => self.take_away(n)?,
            Word::Other => unreachable!(),
        }
        Ok(())
    }

    // Takes a action that ends the line.
    fn end_with(&mut self, action: Action)
        ensures { self.new ≡ record self.old { action = action; expected = End } }
    {
        self.action = action;
        self.expected = Expected::End;
    }

    // Takes a number as what is expected here.
    fn take(&mut self, n: u8) -> Result<(), AllocError>
        requires { IsTrue (may_stand self.old.expected (Number n)) }
        ensures ok { OnOk result (Stepped self.old (Number n) self.new) }
        ensures err { IfErr result (λ _. IsTrue (is_listed self.old.expected (Number n))) }
    {
        match self.expected {
            Expected::Tray | Expected::RingTray => self.trays.push(n)?,
            Expected::CountNumber => {
                self.count = Some(n);
                self.expected = Expected::after_count(self.kind);
            }
            Expected::SpanNumber => {
                self.span = Some(n);
                self.expected = Expected::ActionWord;
            }
            Expected::Turn => self.take_turn(n)?,
            Expected::LimitNumber => self.take_limit(n),
            Expected::LooksNumber => self.take_looks(u32::from(n)),
            _ => unreachable!(),
        }
        Ok(())
    }

    // Takes the limit of a plan.
    fn take_limit(&mut self, limit: u8)
        requires { self.old.expected ≡ LimitNumber }
        ensures { Stepped self.old (Number limit) self.new }
    {
        self.action = Action::Plan {
            limit,
            looks: HIGHEST_GRANT_SUM,
        };
        self.expected = Expected::LooksWord;
    }

    // Takes the looks of a plan. They are expected only where the action is a plan.
    fn take_looks(&mut self, looks: u32)
        requires expected { self.old.expected ≡ LooksNumber }
        requires least { 1 ≤ looks }
        requires most { looks ≤ HIGHEST_GRANT_SUM }
        ensures { Stepped self.old (number_word looks) self.new }
    {
        if let Action::Plan { limit, .. } = self.action {
            self.end_with(Action::Plan { limit, looks });
        }
    }

    // Takes the next turn. One is expected only where the action is to make turns.
    fn take_turn(&mut self, n: u8) -> Result<(), AllocError>
        requires { self.old.expected ≡ Turn }
        ensures { OnOk result (Stepped self.old (Number n) self.new) }
    {
        if let Action::Turns(turns) = &mut self.action {
            turns.push(n)?;
        }
        Ok(())
    }

    // Takes the tray that n after a minus sign writes.
    fn take_away(&mut self, n: u8) -> Result<(), AllocError>
        requires { IsTrue (may_stand self.old.expected (Away n)) }
        ensures { OnOk result (Stepped self.old (Away n) self.new) }
    {
        self.trays.push(128 + n)?;
        Ok(())
    }

    // The request that has been read.
    pub(crate) fn finish(self) -> Request
        requires { IsTrue (may_end self.expected) }
        ensures { (ws : List Word) → HasRead self ws → Asks ws result }
    {
        let Reader {
            kind,
            trays,
            count,
            span,
            action,
            ..
        } = self;
        Request {
            kind,
            trays,
            count,
            span,
            action,
        }
    }
}
