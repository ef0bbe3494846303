// What the programs that run cases share: the lines of the input, the fields of a line, the bytes and numbers that they spell, and the line of an answer.
// Every function is total: what is out of range is taken as nothing.
#![tactic(auto)]

mod fields;
mod hex;
mod lines;
mod sink;

pub use fields::{byte, field, first, item, listed, number, place, signed, within};
pub use hex::{repeated, unhex};
pub use lines::{answer_lines, next_line, read_full};
pub use sink::Sink;
