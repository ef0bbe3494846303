// Where an answer goes, byte by byte.
use crate::fields::within;
use itoa::Buffer;
use std::io::{self, Stdout, Write};

// How many bytes are held before they are written.
const ROOM: usize = 16;

// What is put is held and written some at a time; where there is no output it is only counted: how many bytes, and their sum (from 5381, each
// byte gives 33 times the sum plus the byte). Once a write has failed, nothing more is written.
#[derive(Drop)]
pub struct Sink {
    pub count: usize,
    pub sum: u32,
    output: Option<Stdout>,
    outcome: io::Result<()>,
    held: [u8; ROOM],
    n: usize,
}

// The digit of a number below 16.
fn glyph(v: u8) -> u8 {
    match v {
        0..=9 => v + b'0',
        10..=15 => v - 10 + b'a',
        _ => b'?',
    }
}

impl Sink {
    // Nothing yet; where there is no output, what is put is only counted.
    fn empty(output: Option<Stdout>) -> Self {
        Sink {
            count: 0,
            sum: 5381,
            output,
            outcome: Ok(()),
            held: [0; ROOM],
            n: 0,
        }
    }

    // Nothing yet, and what is put is written.
    pub fn new(output: Stdout) -> Self {
        Sink::empty(Some(output))
    }

    // Nothing yet, and what is put is only counted.
    pub fn quiet() -> Self {
        Sink::empty(None)
    }

    // With one more byte counted.
    fn counted(mut self, b: u8) -> Self {
        self.count = self.count.wrapping_add(1);
        self.sum = self.sum.wrapping_mul(33).wrapping_add(u32::from(b));
        self
    }

    // With one more byte held, where there is room.
    fn with(mut self, b: u8) -> Self {
        let at = self.n;
        if let Some(place) = self.held.get_mut(at) {
            *place = b;
            self.n = at + 1;
        }
        self
    }

    // Writes what is held.
    pub fn flush(mut self) -> Self {
        if let Some(mut to) = self.output
            && self.outcome.is_ok()
        {
            self.outcome = to.write_all(within(&self.held, 0, self.n));
        }
        self.n = 0;
        self
    }

    // Writes what is held, and answers whether each write has gone well.
    pub fn finish(self) -> io::Result<()> {
        self.flush().outcome
    }

    // Puts a byte.
    pub fn put(self, b: u8) -> Self {
        if self.output.is_none() {
            return self.counted(b);
        }
        if self.n < ROOM {
            return self.with(b);
        }
        self.flush().with(b)
    }

    // Puts a byte, unless it is the first of a list.
    pub fn joint(self, i: usize, b: u8) -> Self {
        if i > 0 {
            return self.put(b);
        }
        self
    }

    // Puts a dot where there is nothing to list.
    pub fn dot(self, length: usize) -> Self {
        if length == 0 {
            return self.put(b'.');
        }
        self
    }

    // Puts bytes as they are.
    pub fn text(self, s: &[u8]) -> Self {
        s.iter().fold(self, |sink, b| sink.put(*b))
    }

    // Puts bytes in hex.
    pub fn hex(self, s: &[u8]) -> Self {
        s.iter().fold(self.dot(s.len()), |sink, b| {
            sink.put(glyph(*b / 16)).put(glyph(*b % 16))
        })
    }

    // Puts a digit for each byte.
    pub fn digits(self, s: &[u8]) -> Self {
        s.iter()
            .fold(self.dot(s.len()), |sink, b| sink.put(glyph(*b)))
    }

    // Puts a number.
    pub fn number(self, n: u64) -> Self {
        let mut digits = Buffer::new();
        self.text(digits.format(n).as_bytes())
    }

    // Puts numbers, joined by commas.
    pub fn numbers(self, s: &[u16]) -> Self {
        let mut sink = self.dot(s.len());
        for (i, n) in s.iter().enumerate() {
            sink = sink.joint(i, b',').number(u64::from(*n));
        }
        sink
    }

    // Puts a space and bytes in hex.
    pub fn hex_field(self, s: &[u8]) -> Self {
        self.put(b' ').hex(s)
    }

    // Puts a space and a digit for each byte.
    pub fn digits_field(self, s: &[u8]) -> Self {
        self.put(b' ').digits(s)
    }

    // Puts a space and numbers.
    pub fn numbers_field(self, s: &[u16]) -> Self {
        self.put(b' ').numbers(s)
    }

    // Puts a space and a number.
    pub fn number_field(self, n: u64) -> Self {
        self.put(b' ').number(n)
    }

    // Puts what stands before an answer.
    pub fn yes(self) -> Self {
        self.put(b'=').put(b' ')
    }

    // Puts a refusal: its number and its place.
    pub fn refused(self, number: u64, place: u64) -> Self {
        self.put(b'!').number_field(number).number_field(place)
    }
}
