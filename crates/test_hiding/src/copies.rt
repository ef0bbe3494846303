// Copies and the key of a sheet, each with its answer put and its output looked at.
use sentence::Refusal;
use test_casework::{Sink, within};

// What the output is full of before a call: no written line has this byte.
const MARK: u8 = 255;

// Puts a plus where the output has changed from a place on.
fn looked(out: &[u8], from: usize, sink: Sink) -> Sink {
    if out.iter().skip(from).all(|b| *b == MARK) {
        return sink;
    }
    sink.put(b'+')
}

// Puts a refusal.
pub fn refused(f: Refusal, sink: Sink) -> Sink {
    sink.put(b' ')
        .put(b'!')
        .number(u64::from(f.reason.number()))
        .put(b',')
        .number(f.place as u64)
}

// Puts what a call answered, with the line that it wrote.
fn told(a: Result<usize, Refusal>, out: &[u8], sink: Sink) -> Sink {
    match a {
        Ok(n) => {
            let begun = sink.put(b' ').put(b'=');
            looked(out, n, begun.hex(within(out, 0, n)))
        }
        Err(f) => looked(out, 0, refused(f, sink)),
    }
}

// What a call answers that is lent as much of the output as there is to be room.
pub fn one<F: FnOnce(&mut [u8]) -> Result<usize, Refusal>>(
    call: F,
    room: usize,
    out: &mut [u8],
    sink: Sink,
) -> Sink
    requires { F.IsAlwaysCallable call }
{
    out.fill(MARK);
    let n = room.min(out.len());
    let a = call(&mut out[..n]);
    told(a, out, sink)
}
