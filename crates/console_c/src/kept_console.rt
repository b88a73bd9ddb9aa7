ghost use Rattle.std.specs.Prelude.{Option};
ghost use Rattle.console.specs.declared.console.Console.{Console};
ghost use Rattle.console_c.specs.Ends.{NewEnds, RunEnds};

use crate::console_ran::ConsoleRan;
use crate::status::Status;
use console::Console;

/// What lies in the memory that C keeps a console in: a console, or none. Where all bytes are 0 there is none.
pub struct KeptConsole {
    pub(crate) console: Option<Console>,
}

impl KeptConsole {
    // A console with no task.
    pub(crate) fn new() -> KeptConsole
        ensures { NewEnds result.console }
    {
        KeptConsole {
            console: Some(Console::new()),
        }
    }

    // Makes one call of the console.
    pub(crate) fn run(
        &mut self,
        tape: &[u8],
        place: usize,
        reply: &mut [u8],
        ran: &mut ConsoleRan,
    ) -> Status
        ensures { RunEnds tape.now place self.old.console reply.old ran.old result self.new.console reply.new ran.new }
    {
        match &mut self.console {
            None => Status::NoConsole,
            Some(console) => match console.run(tape, place, reply) {
                Err(refusal) => Status::Refused(refusal.fault),
                Ok(told) => {
                    *ran = ConsoleRan {
                        next: told.next,
                        count: told.count,
                    };
                    Status::Done
                }
            },
        }
    }
}
