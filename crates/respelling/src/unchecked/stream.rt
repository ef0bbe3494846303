// The program on a piece of input.
ghost use Rattle.std.specs.Prelude.{◌≡◌, ◌-◌, ◌≤◌, length};
ghost use Rattle.respelling.specs.Stream.{line_len, turn, Stepped, Turned};
ghost use Rattle.respelling.specs.Stream.{step as Stream-step};

use crate::Turn;
use crate::unchecked::line::put_answer;

// The bytes before the first LF.
fn line_len(s: &[u8]) -> usize
    ensures { result ≡ line_len s.now }
{
    s.iter().position(|b| *b == b'\n').unwrap_or(s.len())
}

// Answers the first line of a piece, where its LF is there or the input ends with it, and the output has room for the longest answer.
fn step(s: &[u8], last: bool, out: &mut [u8], at: usize) -> Option<Turn>
    requires { at ≤ length out.old }
    ensures { Stepped (Stream-step last (length out.old - at) s.now) out.old at result out.new }
{
    if out.len() - at < 8194 {
        return None;
    }
    let n = line_len(s);
    if n < s.len() {
        return Some(Turn {
            used: n + 1,
            wrote: put_answer(&s[..n], out, at),
        });
    }
    if last & (0 < s.len()) {
        return Some(Turn {
            used: s.len(),
            wrote: put_answer(s, out, at),
        });
    }
    None
}

// Answers the lines of a piece, as far as they are whole and the output has room for the longest answer. `last` says that no piece follows. What is
// not used is to be given again, with more behind it.
pub fn respell(input: &[u8], last: bool, out: &mut [u8]) -> Turn
    ensures { Turned (turn last (length out.old) input.now) out.old result out.new }
{
    let mut used = 0;
    let mut wrote = 0;
    while let Some(t) = step(&input[used..], last, out, wrote) {
        used += t.used;
        wrote = t.wrote;
    }
    Turn { used, wrote }
}
