ghost use Rattle.std.specs.Prelude.{◌≡◌};
ghost use Rattle.outcome.specs.Verdicts.{heard, verdict_after};
ghost use Rattle.outcome.specs.declared.verdict.Verdict.TheVariants.{Unfinished};

use planner::{Answer, Fault, Played};

// How far a search has come, as the last accepted answer to a grant tells it; a plan with its length.
#[derive(Clone, Copy, PartialEq, Eq, Debug)]
pub(crate) enum Verdict {
    Unfinished { looks: u32 },
    Found { length: u8, looks: u32 },
    NoPlan { looks: u32 },
}

impl Verdict {
    // The verdict after all replies. Before the first no look is made.
    pub(crate) fn last(replies: &[Played]) -> Verdict
        ensures { result ≡ verdict_after (Unfinished 0) replies.now }
    {
        let start = Verdict::Unfinished { looks: 0 };
        replies
            .iter()
            .fold(start, |verdict, played| verdict.after(played.reply))
    }

    // The verdict after one more reply.
    fn after(self, reply: Result<Answer, Fault>) -> Verdict
        ensures { result ≡ heard self reply }
    {
        match reply {
            Ok(Answer::Working { looks }) => Verdict::Unfinished { looks },
            Ok(Answer::Found { length, looks }) => Verdict::Found { length, looks },
            Ok(Answer::NoPlan { looks }) => Verdict::NoPlan { looks },
            Ok(Answer::Accepted | Answer::Fetched { .. }) | Err(_) => self,
        }
    }
}
