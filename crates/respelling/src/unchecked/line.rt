// The program's answer to one line.
ghost use Rattle.std.specs.Prelude.{◌≡◌, ◌+◌, ◌≤◌, length};
ghost use Rattle.sentence.specs.Forms.{letter};
ghost use Rattle.convert_buffers.specs.Between.{refuses};
ghost use Rattle.convert.specs.Convert.{conversion};
ghost use Rattle.respelling.specs.Puts.{Puts, Into};
ghost use Rattle.respelling.specs.Respell.{printed, answer};

use crate::unchecked::decimal::put_number;
use sentence::{NO_FORM, Refusal};

// The number of a letter's form, and 3 for none: the conversion takes numbers, and refuses those of no form in its own order.
fn form(b: u8) -> u32
    ensures { result ≡ letter b }
{
    match b {
        b'R' => 0,
        b'T' => 1,
        b'P' => 2,
        _ => 3,
    }
}

// Puts a printed refusal into a slice behind a place, and answers where it ends.
fn put_refusal(r: Refusal, out: &mut [u8], at: usize) -> usize
    requires { at + 43 ≤ length out.old }
    ensures puts { Puts (printed (refuses r)) out.old at result out.new }
    ensures upper_bound { result ≤ at + 43 }
{
    out[at] = b'!';
    let a = put_number(usize::from(r.reason.number()), b' ', out, at + 1);
    put_number(r.place, b'\n', out, a)
}

// Converts a sentence line into the 8,192 bytes of a slice behind a place.
fn convert_into(
    reader: u32,
    writer: u32,
    line: &[u8],
    out: &mut [u8],
    start: usize,
) -> Result<usize, Refusal>
    requires { start + 8192 ≤ length out.old }
    ensures { Into (conversion reader writer line.now 8192 0) out.old start result out.new }
{
    let end = start + 8192;
    convert::convert(reader, writer, line, &mut out[start..end], 0)
}

// Puts the printed conversion of a sentence line into a slice behind a place, and answers where it ends.
fn put_conversion(reader: u32, writer: u32, line: &[u8], out: &mut [u8], at: usize) -> usize
    requires { at + 8194 ≤ length out.old }
    ensures puts { Puts (printed (conversion reader writer line.now 8192 0)) out.old at result out.new }
    ensures upper_bound { result ≤ at + 8194 }
{
    out[at] = b'=';
    let start = at + 1;
    match convert_into(reader, writer, line, out, start) {
        Ok(n) => {
            let e = start + n;
            out[e] = b'\n';
            e + 1
        }
        Err(r) => put_refusal(r, out, at),
    }
}

// Puts the printed answer to a line into a slice behind a place, and answers where it ends.
pub fn put_answer(line: &[u8], out: &mut [u8], at: usize) -> usize
    requires { at + 8194 ≤ length out.old }
    ensures puts { Puts (answer line.now) out.old at result out.new }
    ensures upper_bound { result ≤ at + 8194 }
{
    if line.len() < 2 {
        return put_refusal(NO_FORM, out, at);
    }
    put_conversion(form(line[0]), form(line[1]), &line[2..], out, at)
}
