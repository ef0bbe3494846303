// Asks for note keys and withheld copies: each line of the input is written back, a question with its answer. A question is fields
// between spaces.
// K FORM LINE ROOM LETTER INDEX VALUE: the key, out of the sheet of a line with what is changed of it.
// H FORM LINE ROOM LETTER INDEX VALUE START END: the copy of a range, out of the same.
// A FORM LINE ROOM: the copies of every range from 0 to one past the characters, for each start in turn those of each end.
// FORM is R, T or P. LINE is hex; `HEX*COUNT` is that often repeated, and such are joined by commas. ROOM is at most 16,384. A number
// behind `~` is counted down from the largest. LETTER, INDEX and VALUE: N, B, C, E, G: that number of the record is the value, C the
// columns and E the cells; L: of the buffer with the index only so many elements are lent; - changes nothing.
// An answer is `=` and the key or copy in hex, or `!` with number and place of a refusal; a `+` behind it says that output changed which must
// not. The output is full of one byte before each call. A line that starts with # is no question.
#![tactic(auto)]

mod copies;
mod question;

use std::io;
use test_casework::answer_lines;

fn main(rt: HostRuntime) -> io::Result<()> {
    let mut line = [0u8; 8448];
    answer_lines(&mut rt.stdin(), rt.stdout(), &mut line, question::ask)
}
