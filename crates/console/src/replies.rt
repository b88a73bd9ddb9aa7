ghost use Rattle.std.specs.Prelude.{◌≡◌, ◌≤◌, ◌++◌, ℕ, List, length};
ghost use Rattle.console.specs.Tapes.{AllReplies, LongAlike, OneReply, written};

use crate::console::{Console, LONGEST_TAPE};
use tape::LONGEST_REPLY;

/// The replies to a tape have at most so many bytes, since each command has one at least.
pub const LONGEST_REPLIES: usize = LONGEST_TAPE * LONGEST_REPLY;

/// Writes all replies to a tape, one after the other, by a new console, as far as there is room, and gives how many bytes they are. A fault ends them, with its five bytes.
pub fn write_replies(tape: &[u8], room: &mut [u8]) -> usize
    ensures one { OneReply }
    ensures long { LongAlike }
    ensures replies { (bytes : List ℕ) × AllReplies tape.now bytes × (result ≡ length bytes) × (room.new ≡ written room.old bytes) }
    ensures few { result ≤ LONGEST_REPLIES }
{
    Console::new().run_tape(tape, room)
}

// Writes these bytes into the room from a place on, as far as it goes.
pub(crate) fn put(room: &mut [u8], at: usize, bytes: &[u8])
    ensures { (old so_far : List ℕ) → room.old ≡ written old so_far → at ≡ length so_far →
        room.new ≡ written old (so_far ++ bytes.now) }
{
    let start = at.min(room.len());
    fill(&mut room[start..], bytes);
}

// Writes these bytes into a room from its beginning, as far as it goes.
fn fill(room: &mut [u8], bytes: &[u8])
    ensures { room.new ≡ written room.old bytes.now }
{
    let count = bytes.len().min(room.len());
    room[..count].copy_from_slice(&bytes[..count]);
}
