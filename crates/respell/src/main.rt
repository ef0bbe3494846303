// Reads lines from standard input, each two form letters and a sentence line, and prints each line in the other form, or its refusal. A call of the
// system that fails is told on standard error, and ends the run.
#![tactic(auto)]

ghost use Rattle.std.specs.Prelude.{◌+◌, ◌≤◌, ◌<◌, ◌≡◌, true, length};
ghost use Rattle.respelling.specs.Run.{HeldIn, TakesMore, Stands, moved, Behind, ReadSome, WroteSome, goes_on, Went, Ended};

use respelling::unchecked::{
    after_read, after_write, answer, goes, keep, read_told, start, write_told,
};
use respelling::{Call, Stand};
use std::io::{self, ErrorKind, Read, Write};
use std::str;

// Says on standard error what has failed, and why: the words of the error, without the number that std writes behind them.
fn say(rt: &impl Eprint, what: &str, why: io::Error) {
    let mut room = [0u8; 256];
    let mut rest: &mut [u8] = &mut room;
    let _ = write!(rest, "{why}");
    let words = str::from_utf8(&room).unwrap_or("");
    let reason = match words.split_once(" (os error ") {
        Some((front, _)) => front,
        None => words.trim_end_matches('\0'),
    };
    let _ = eprintln!(rt; "respell: {what}: {reason}");
}

// Says so where a call has failed and is not made again; a write that took nothing has no error of its own.
fn tell(rt: &impl Eprint, what: &str, call: Call, answer: io::Result<usize>) {
    if let Call::Failed = call {
        say(
            rt,
            what,
            answer.err().unwrap_or(ErrorKind::WriteZero.into()),
        );
    }
}

// Reads once into a buffer behind a place.
fn read_behind(rt: &impl Eprint, from: &mut impl Read, input: &mut [u8], to: usize) -> Call
    requires { to ≤ length input.old }
    ensures { Behind to input.old (moved result) input.new }
{
    let answer = from.read(&mut input[to..]);
    let call = read_told(&answer);
    tell(rt, "standard input", call, answer);
    call
}

// Writes once some of the bytes given.
fn write_from(rt: &impl Eprint, to: &mut impl Write, bytes: &[u8]) -> Call
    ensures { moved result ≤ length bytes.now }
{
    let answer = to.write(bytes);
    let call = write_told(&answer);
    tell(rt, "standard output", call, answer);
    call
}

// Reads once behind what is held, which is moved to the front of the buffer first.
fn read_some(rt: &impl Eprint, from: &mut impl Read, s: Stand, input: &mut [u8]) -> Stand
    requires held_in { HeldIn s input.old }
    requires to_bound { s.to ≤ s.from + 4099 }
    requires takes_more { TakesMore input.old }
    ensures { ReadSome s input.old result input.new }
{
    let m = keep(s, input);
    let c = read_behind(rt, from, input, m.to);
    after_read(m, c, input)
}

// Writes once some of what is due.
fn write_some(rt: &impl Eprint, to: &mut impl Write, s: Stand, out: &[u8]) -> Stand
    requires { (s.put < s.wrote) × (s.wrote ≤ length out.now) }
    ensures { WroteSome s result }
{
    let c = write_from(rt, to, &out[s.put..s.wrote]);
    after_write(s, c)
}

// One move: what is due is written first, then what is held is answered, and where nothing can be answered more is read.
fn turn(
    rt: &impl Eprint,
    from: &mut impl Read,
    to: &mut impl Write,
    s: Stand,
    input: &mut [u8],
    out: &mut [u8],
) -> Stand
    requires stands { Stands s input.old out.old }
    requires s_value { goes_on s ≡ true }
    requires takes_more { TakesMore input.old }
    ensures { Went s input.old out.old result input.new out.new }
{
    if s.put < s.wrote {
        return write_some(rt, to, s, out);
    }
    if s.waits {
        return read_some(rt, from, s, input);
    }
    answer(s, input, out)
}

// Moves until a call has failed, or the input has ended and all is answered and written. A proved loop has to end, and nothing says that the input
// does. So the loop counts its turns, up to a number that no run uses up.
fn run(
    rt: &impl Eprint,
    from: &mut impl Read,
    to: &mut impl Write,
    input: &mut [u8],
    out: &mut [u8],
) -> Stand
    requires takes_more { TakesMore input.old }
    requires takes_answer { 8194 ≤ length out.old }
    ensures { Ended result input.new out.new }
{
    let mut s = start();
    for _ in 0..u64::MAX {
        if !goes(s) {
            break;
        }
        s = turn(rt, from, to, s, input, out);
    }
    s
}

fn main(rt: HostRuntime) {
    let mut input = [0u8; 65536];
    let mut out = [0u8; 65536];
    run(&rt, &mut rt.stdin(), &mut rt.stdout(), &mut input, &mut out);
}
