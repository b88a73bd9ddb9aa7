// What C calls. C passes a slice as a pointer and a length; the compiler reads a null pointer as a slice of no bytes.
ghost use Rattle.std.specs.Prelude.{◌≡◌, ◌≤◌, if◌then◌else◌, nat_lt};
ghost use Rattle.std.specs.Borrow.{sem};
ghost use Rattle.std.specs.Ptr.{points_to, uninit_at};
ghost use Rattle.console.specs.declared.replies.TheConstants.{LONGEST_REPLIES};
ghost use Rattle.console.specs.Tapes.{LongAlike, OneReply};
ghost use Rattle.console_c.specs.declared.kept_console.KeptConsole.{KeptConsole};
ghost use Rattle.console_c.specs.declared.status.Status.{Status};
ghost use Rattle.console_c.specs.declared.status.Status.TheVariants.{Done, NoRoom};
ghost use Rattle.console_c.specs.contracts.kept_console.KeptConsole.{the_row};
ghost use Rattle.console_c.specs.Ends.{NewEnds, RepliesEnd, RunEnds};
ghost use Rattle.console_c.specs.Memory.{alignment, kept_at, size};
ghost use Rattle.console_c.specs.Statuses.{status_number};

use crate::console_ran::ConsoleRan;
use crate::kept_console::KeptConsole;
use crate::status::Status;
use console::write_replies;
use std::mem::{align_of, size_of};

/// How many bytes the memory of a console has.
#[unsafe(no_mangle)]
pub extern "C" fn console_size() -> usize
    ensures { result ≡ size }
{
    size_of::<KeptConsole>()
}

/// The address of the memory of a console is a multiple of this.
#[unsafe(no_mangle)]
pub extern "C" fn console_alignment() -> usize
    ensures { result ≡ alignment }
{
    align_of::<KeptConsole>()
}

/// Makes a console with no task in this memory, whatever was there.
///
/// # Safety
///
/// The memory of a console lies at the pointer, and nothing else uses it during the call.
#[unsafe(no_mangle)]
pub unsafe extern "C" fn console_new(console: *mut KeptConsole)
    requires* { sem 𝓛 (uninit_at the_row console) }
    ensures* { sem 𝓛 (kept_at console (λ kept. NewEnds kept.console)) }
{
    unsafe { console.write(KeptConsole::new()) };
}

/// Runs the command at a place of the tape, and writes its reply.
///
/// # Safety
///
/// At the pointer lies what `console_new` has made or a call has left, or memory of zeros alone; nothing else uses it
/// during the call.
#[unsafe(no_mangle)]
pub unsafe extern "C" fn console_run(
    console: *mut KeptConsole,
    tape: &[u8],
    place: usize,
    reply: &mut [u8],
    ran: &mut ConsoleRan,
) -> u8
    ghost kept: { KeptConsole }
    requires* { sem 𝓛 (points_to the_row console kept) }
    ensures* { sem 𝓛 (kept_at console (λ after. (s : Status) × (result ≡ status_number s)
        × RunEnds tape.now place kept.console reply.old ran.old s after.console reply.new ran.new)) }
{
    run(unsafe { &mut *console }, tape, place, reply, ran)
}

// Runs the command at a place of the tape, and gives the number of the status.
fn run(
    kept: &mut KeptConsole,
    tape: &[u8],
    place: usize,
    reply: &mut [u8],
    ran: &mut ConsoleRan,
) -> u8
    ensures { (s : Status) × (result ≡ status_number s)
        × RunEnds tape.now place kept.old.console reply.old ran.old s kept.new.console reply.new ran.new }
{
    kept.run(tape, place, reply, ran).number()
}

/// Writes all replies to a whole tape by a new console, as far as there is room for them, and says how many bytes they are.
#[unsafe(no_mangle)]
pub extern "C" fn console_replies(tape: &[u8], room: &mut [u8], needed: &mut usize) -> u8
    ensures one { OneReply }
    ensures long { LongAlike }
    ensures end { (s : Status) × (result ≡ status_number s) × RepliesEnd tape.now room.old s room.new needed.new }
    ensures few { needed.new ≤ LONGEST_REPLIES }
{
    *needed = write_replies(tape, room);
    fit(*needed, room.len()).number()
}

// How a call for all replies ends, by how many bytes they are and how many there is room for.
fn fit(needed: usize, room: usize) -> Status
    ensures { result ≡ (if nat_lt room needed then NoRoom else Done) }
{
    if needed > room {
        Status::NoRoom
    } else {
        Status::Done
    }
}
