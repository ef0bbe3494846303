// The bytes that a field spells in hex.
use crate::fields::number;

// The byte that two hex digits spell at a place, if they do.
fn spelt(s: &[u8], i: usize) -> Option<u8> {
    let high = char::from(*s.get(i)?).to_digit(16)?;
    let low = char::from(*s.get(i + 1)?).to_digit(16)?;
    u8::try_from(high * 16 + low).ok()
}

// Puts the bytes that a field spells behind the first `at` of `out`, as far as they fit, and answers where they end.
pub fn unhex(s: &[u8], out: &mut [u8], at: usize) -> usize {
    let mut i = 0;
    let mut n = at;
    // A byte takes two digits, and what is no digit one place.
    while i < s.len() {
        match spelt(s, i) {
            None => i += 1,
            Some(b) => {
                if n >= out.len() {
                    return n;
                }
                out[n] = b;
                n += 1;
                i += 2;
            }
        }
    }
    n
}

// Puts the bytes that a field spells so many times.
fn times(s: &[u8], count: u64, out: &mut [u8], at: usize) -> usize {
    let mut n = at;
    for _ in 0..count {
        n = unhex(s, out, n);
    }
    n
}

// Puts the bytes of a run: hex digits, or hex digits, `*` and how often they stand.
fn run(s: &[u8], out: &mut [u8], at: usize) -> usize {
    match s.iter().position(|b| *b == b'*') {
        Some(star) => times(&s[..star], number(&s[star + 1..]), out, at),
        None => unhex(s, out, at),
    }
}

// Puts the bytes of runs, which are joined by commas, and answers how many there are.
pub fn repeated(s: &[u8], out: &mut [u8]) -> usize {
    let mut n = 0;
    for one in s.split(|b| *b == b',') {
        n = run(one, out, n);
    }
    n
}
