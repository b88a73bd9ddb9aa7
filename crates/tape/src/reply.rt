ghost use Rattle.std.specs.Prelude.{◌≡◌, ◌≤◌, ◌++◌, length, drop};
ghost use Rattle.tape.specs.Replies.{reply_bytes};

use crate::refusal::Refusal;
use planner::{Answer, HIGHEST_LIMIT, Sheet};

/// No reply has more bytes than this: those of a plan, which are its letter, its length and the sheet.
pub const LONGEST_REPLY: usize = 2 + HIGHEST_LIMIT as usize;

/// Writes a reply, and gives the number of its bytes; those past them stay. A fetch is told with the sheet.
pub fn write_reply(
    reply: Result<Answer, Refusal>,
    sheet: &Sheet,
    bytes: &mut [u8; LONGEST_REPLY],
) -> usize
    ensures count { result ≡ length (reply_bytes reply sheet.now) }
    ensures written { bytes.new ≡ reply_bytes reply sheet.now ++ drop (length (reply_bytes reply sheet.now)) bytes.old }
{
    match reply {
        Ok(Answer::Accepted) => put(bytes, &[b'A']),
        Ok(Answer::Working { looks }) => {
            let [a, b, c, d] = looks.to_be_bytes();
            put(bytes, &[b'B', a, b, c, d])
        }
        Ok(Answer::Found { length, looks }) => {
            let [a, b, c, d] = looks.to_be_bytes();
            put(bytes, &[b'Y', length, a, b, c, d])
        }
        Ok(Answer::NoPlan { looks }) => {
            let [a, b, c, d] = looks.to_be_bytes();
            put(bytes, &[b'N', a, b, c, d])
        }
        Ok(Answer::Fetched { length }) => {
            put(bytes, &[b'T', length]);
            bytes[2..].copy_from_slice(sheet);
            LONGEST_REPLY
        }
        Err(refusal) => put(bytes, &refusal.bytes()),
    }
}

// Writes these bytes at the beginning, and gives their number.
fn put(buffer: &mut [u8; LONGEST_REPLY], bytes: &[u8]) -> usize
    requires { length bytes.now ≤ LONGEST_REPLY }
    ensures count { result ≡ length bytes.now }
    ensures written { buffer.new ≡ bytes.now ++ drop (length bytes.now) buffer.old }
{
    buffer[..bytes.len()].copy_from_slice(bytes);
    bytes.len()
}
