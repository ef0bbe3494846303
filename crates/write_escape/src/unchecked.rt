// Internal: each function assumes that the output has room.
ghost use Rattle.std.specs.Prelude.{◌+◌, ◌≤◌, ◌≡◌, length, replicate};
ghost use Rattle.sentence.specs.Reading.{kind};
ghost use Rattle.sentence.specs.Writing.{escape};
ghost use Rattle.write_escape.specs.Escape.{meant};
ghost use Rattle.write_escape.specs.Wrote.{Wrote};

use sentence::Form;

// Whether a byte is written behind a backslash.
fn has_meaning(form: Form, b: u8) -> bool
    ensures { result ≡ meant (kind form b) }
{
    if b == b' ' || b == b'/' || b == b'\\' {
        return form != Form::Raw;
    }
    if b == b'-' || b == b'|' {
        return form == Form::Partial;
    }
    false
}

// How many bytes a slice takes where it is escaped.
pub fn escaped_len(form: Form, src: &[u8]) -> usize
    ensures { result ≡ length (escape form src.now) }
{
    let mut n = 0;
    for &b in src {
        n += 1 + usize::from(has_meaning(form, b));
    }
    n
}

// A slice, escaped. Each branch stores the byte: one store behind both is slower.
pub fn copy_escaped(form: Form, src: &[u8], out: &mut [u8], at: usize) -> usize
    requires { at + length (escape form src.now) ≤ length out.old }
    ensures { Wrote out.old at (escape form src.now) out.new result }
{
    let mut n = at;
    for &b in src {
        if has_meaning(form, b) {
            out[n] = b'\\';
            n += 1;
            out[n] = b;
            n += 1;
        } else {
            out[n] = b;
            n += 1;
        }
    }
    n
}

// A slice as it stands. It has one to four bytes mostly: for so few, `copy_from_slice` is slower, and three are the commonest.
pub fn copy(src: &[u8], out: &mut [u8], at: usize) -> usize
    requires { at + length src.now ≤ length out.old }
    ensures { Wrote out.old at src.now out.new result }
{
    if let [a, b, c] = src {
        out[at] = *a;
        out[at + 1] = *b;
        out[at + 2] = *c;
        return at + 3;
    }
    let mut n = at;
    for &b in src {
        out[n] = b;
        n += 1;
    }
    n
}

// One byte, `count` times.
pub fn repeat(b: u8, count: usize, out: &mut [u8], at: usize) -> usize
    requires { at + count ≤ length out.old }
    ensures { Wrote out.old at (replicate count b) out.new result }
{
    let end = at + count;
    out[at..end].fill(b);
    end
}
