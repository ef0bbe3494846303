// The input, line by line or as a whole.
ghost use Rattle.std.specs.Io.{ReadsAtMost};

use crate::fields::{first, within};
use crate::sink::Sink;
use std::io::{self, Read, Stdout};

// The next byte of the input, if there is one.
fn next<R: Read>(input: &mut R) -> io::Result<Option<u8>> {
    let mut b = [0u8; 1];
    let got = input.read(&mut b)?;
    Ok((got > 0).then_some(b[0]))
}

// Puts a byte behind the first `n`, where there is room, and answers how many there are then.
fn put(line: &mut [u8], n: usize, b: u8) -> usize {
    match line.get_mut(n) {
        Some(place) => {
            *place = b;
            n + 1
        }
        None => n,
    }
}

// Puts the next line of the input, as much of it as there is room for, and answers how long it is, if there is one; the turns are counted, up to a
// number that no line uses up.
pub fn next_line<R: Read>(input: &mut R, line: &mut [u8]) -> io::Result<Option<usize>> {
    let mut n = 0;
    for _ in 0..u64::MAX {
        match next(input)? {
            Some(b'\n') => return Ok(Some(n)),
            Some(b) => n = put(line, n, b),
            None => return Ok((n > 0).then_some(n)),
        }
    }
    Ok(None)
}

// Writes back each line of the input, with its answer unless it starts with #; the turns are counted, up to a number that no run uses up.
pub fn answer_lines<R: Read, F: Fn(&[u8], Sink) -> Sink>(
    input: &mut R,
    out: Stdout,
    line: &mut [u8],
    answer: F,
) -> io::Result<()>
    requires { F.IsAlwaysCallable answer }
{
    for _ in 0..u64::MAX {
        let Some(n) = next_line(input, line)? else {
            break;
        };
        let asked = within(line, 0, n);
        let written = Sink::new(out).text(asked);
        let told = if first(asked) == b'#' {
            written
        } else {
            answer(asked, written)
        };
        told.put(b'\n').finish()?;
    }
    Ok(())
}

// Puts the whole input, as much of it as there is room for, and answers how many bytes there are.
pub fn read_full<R: Read>(input: &mut R, text: &mut [u8]) -> io::Result<usize>
    ensures { ReadsAtMost result text.new }
{
    let mut n = 0;
    // A read gives as much as it likes.
    while n < text.len() {
        let got = input.read(&mut text[n..])?;
        if got == 0 {
            break;
        }
        n += got;
    }
    Ok(n)
}
