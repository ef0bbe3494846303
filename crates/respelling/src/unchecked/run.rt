// What stands between two calls of the system, and what each call makes of it.
ghost use Rattle.std.specs.Prelude.{◌+◌, ◌≤◌, ◌≡◌, length};
ghost use Rattle.respelling.specs.Stream.{turn};
ghost use Rattle.respelling.specs.Run.{held_bytes, HeldIn, first, held_end, Answered, Kept, moved, call_of, read_told_by, write_told_by, read_told, write_told};
ghost use Rattle.respelling.specs.Run.{after_read, after_write, goes_on};

use crate::unchecked::stream::respell;
use crate::{Call, Stand};
use std::io;

// Nothing is read, and nothing written.
pub fn start() -> Stand
    ensures { result ≡ first }
{
    Stand {
        from: 0,
        to: 0,
        put: 0,
        wrote: 0,
        last: false,
        waits: true,
        failed: false,
    }
}

// Where the bytes end that are held from `from` up to `to`, after so many were answered: where none could be, the line that is held has not ended,
// and 4,099 bytes of it are enough.
fn end_of(from: usize, to: usize, used: usize) -> usize
    requires { from ≤ to }
    ensures { result ≡ held_end from to used }
{
    if used > 0 {
        to
    } else {
        from + (to - from).min(4099)
    }
}

// Answers what is held, as far as it can be, into an output of which all was written.
pub fn answer(s: Stand, input: &[u8], out: &mut [u8]) -> Stand
    requires { HeldIn s input.now }
    ensures { Answered s (turn s.last (length out.old) (held_bytes s input.now)) out.old result out.new }
{
    let t = respell(&input[s.from..s.to], s.last, out);
    Stand {
        from: s.from + t.used,
        to: end_of(s.from, s.to, t.used),
        put: 0,
        wrote: t.wrote,
        waits: t.used == 0,
        ..s
    }
}

// Moves what is held to the front of the input buffer, so that there is room behind it.
pub fn keep(s: Stand, input: &mut [u8]) -> Stand
    requires { HeldIn s input.old }
    ensures { Kept s input.old result input.new }
{
    input.copy_within(s.from..s.to, 0);
    Stand {
        from: 0,
        to: s.to - s.from,
        ..s
    }
}

// The number of the error of a call that a signal interrupted: EINTR.
const INTERRUPTED: i32 = 4;

impl Call {
    // A call that moved so many bytes, or that failed and is to be made again where that is asked.
    pub fn of(moved: usize, failed: bool, again: bool) -> Call
        ensures { result ≡ call_of moved failed again }
    {
        match (failed, again) {
            (false, _) => Call::Moved(moved),
            (true, true) => Call::Again,
            (true, false) => Call::Failed,
        }
    }
}

// What a read says by the number that it answers, of which so many bytes count, and by the number of its error.
pub fn read_told_by(got: isize, moved: usize, error: i32) -> Call
    ensures { result ≡ read_told_by got moved error }
{
    Call::of(moved, got < 0, error == INTERRUPTED)
}

// What a write says so; one that takes nothing has failed.
pub fn write_told_by(got: isize, moved: usize, error: i32) -> Call
    ensures { result ≡ write_told_by got moved error }
{
    Call::of(moved, got <= 0, (got < 0) & (error == INTERRUPTED))
}

// What a read says by its answer.
pub fn read_told(answer: &io::Result<usize>) -> Call
    ensures { result ≡ read_told answer.now }
{
    match answer {
        Ok(moved) => Call::Moved(*moved),
        Err(why) => Call::of(0, true, why.raw_os_error() == Some(INTERRUPTED)),
    }
}

// What a write says so; one that takes nothing has failed.
pub fn write_told(answer: &io::Result<usize>) -> Call
    ensures { result ≡ write_told answer.now }
{
    match answer {
        Ok(0) => Call::Failed,
        Ok(moved) => Call::Moved(*moved),
        Err(_) => read_told(answer),
    }
}

// A call read some bytes behind those that are held, or none, since the input has ended; or it failed.
pub fn after_read(s: Stand, c: Call, input: &[u8]) -> Stand
    requires { s.to + moved c ≤ length input.now }
    ensures { result ≡ after_read s c }
{
    match c {
        Call::Moved(n) => Stand {
            to: s.to + n,
            last: s.last | (n == 0),
            waits: false,
            ..s
        },
        Call::Again => s,
        Call::Failed => Stand { failed: true, ..s },
    }
}

// A call wrote some of the bytes that are due, or failed.
pub fn after_write(s: Stand, c: Call) -> Stand
    requires { s.put + moved c ≤ s.wrote }
    ensures { result ≡ after_write s c }
{
    match c {
        Call::Moved(n) => Stand {
            put: s.put + n,
            ..s
        },
        Call::Again => s,
        Call::Failed => Stand { failed: true, ..s },
    }
}

// Whether the run goes on: no call has failed, and something is to be read, answered or written.
pub fn goes(s: Stand) -> bool
    ensures { result ≡ goes_on s }
{
    !(s.failed | (s.last & s.waits & (s.wrote <= s.put)))
}
