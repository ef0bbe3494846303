// Asks the public functions what the questions of the input ask: each line is written back, a question with its answer.
// A question is fields between spaces, the first a letter, its kind. A line that starts with # is no question.
#![tactic(auto)]

mod rooms;
mod sheets;

use std::io;
use test_casework::{Sink, answer_lines, field, first, number};
use types::CharacterType;

// The type that all characters of a run have, if they have the same.
fn type_of_run(from: u32, to: u32) -> Option<CharacterType> {
    let kind = CharacterType::get_type(from);
    (from..=to)
        .all(|c| CharacterType::get_type(c) == kind)
        .then_some(kind)
}

// K FIRST LAST: the type of the characters of a run, and 0 where they have none in common.
fn kind_case(line: &[u8], sink: Sink) -> Sink {
    let from = u32::try_from(number(field(line, 1)));
    let to = u32::try_from(number(field(line, 2)));
    let code = match (from, to) {
        (Ok(from), Ok(to)) => type_of_run(from, to).map_or(0, |kind| kind.code()),
        _ => 0,
    };
    sink.yes().number(u64::from(code))
}

// The answer to a question.
fn answer(line: &[u8], sink: Sink) -> Sink {
    let to = sink.put(b' ');
    match first(line) {
        b'K' => kind_case(line, to),
        b'M' | b'U' => rooms::ask(line, to),
        _ => sheets::ask(line, to),
    }
}

fn main(rt: HostRuntime) -> io::Result<()> {
    let mut line = [0u8; 8192];
    answer_lines(&mut rt.stdin(), rt.stdout(), &mut line, answer)
}
