// Runs cases against the public functions of the libraries: each line of the input is written back, a case with its answer.
// A case is a letter, its kind, and hex digits, two to a byte. A line that starts with # is no case.
#![tactic(auto)]

use std::io;
use test_casework::{read_full, unhex, within};
use utf8::unchecked::Encoded;

// D: a place of one byte, then a text.
fn decode_case(rt: &impl Print, b: &[u8]) -> io::Result<()> {
    let [at, text @ ..] = b else {
        return Ok(());
    };
    match utf8::decode(text, usize::from(*at)) {
        utf8::Decoded::Char { value, len } => print!(rt; "char {value:x} {len}"),
        utf8::Decoded::Bad => print!(rt; "bad"),
        utf8::Decoded::End => print!(rt; "end"),
    }
}

// V: a text.
fn valid_case(rt: &impl Print, b: &[u8]) -> io::Result<()> {
    print!(rt; "{}", utf8::valid_up_to(b))
}

// The bytes of a number; none of what is no scalar value.
fn encoded(v: u32) -> Encoded {
    if utf8::is_scalar(v) {
        return utf8::unchecked::encode(v);
    }
    Encoded {
        bytes: [0; 4],
        len: 0,
    }
}

// E: a number of four bytes, the highest first; written are the length and the four bytes that it is encoded in.
fn encode_case(rt: &impl Print, b: &[u8]) -> io::Result<()> {
    let [b0, b1, b2, b3, ..] = b else {
        return Ok(());
    };
    let Encoded { bytes, len } = encoded(u32::from_be_bytes([*b0, *b1, *b2, *b3]));
    print!(rt; "{len} ")?;
    for b in bytes {
        print!(rt; "{b:02x}")?;
    }
    Ok(())
}

// Writes the answer to a case of a kind, whose bytes are given.
fn answer(rt: &impl Print, kind: u8, b: &[u8]) -> io::Result<()> {
    print!(rt; " = ")?;
    match kind {
        b'D' => decode_case(rt, b),
        b'V' => valid_case(rt, b),
        b'E' => encode_case(rt, b),
        _ => Ok(()),
    }
}

// Writes a line, with its answer if it is a case.
fn show_line(rt: &impl Print, line: &[u8]) -> io::Result<()> {
    rt.write_all(line)?;
    match line {
        [] | [b'#', ..] => {}
        [kind, digits @ ..] => {
            let mut b = [0u8; 64];
            let n = unhex(digits, &mut b, 0);
            answer(rt, *kind, within(&b, 0, n))?;
        }
    }
    println!(rt)
}

// Writes each line of a text.
fn run(rt: &impl Print, text: &[u8]) -> io::Result<()> {
    if text.is_empty() {
        return Ok(());
    }
    let lines = text.strip_suffix(b"\n").unwrap_or(text);
    for line in lines.split(|b| *b == b'\n') {
        show_line(rt, line)?;
    }
    Ok(())
}

fn main(rt: HostRuntime) -> io::Result<()> {
    let mut buf = [0u8; 65536];
    let n = read_full(&mut rt.stdin(), &mut buf)?;
    run(&rt, &buf[..n])
}
