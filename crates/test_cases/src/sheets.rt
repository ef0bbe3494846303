// Questions on a line that is read: its sentence or its refusal, and what the calls on the sheet answer.
ghost use Rattle.std.specs.Prelude.{◌<◌, ◌^◌};

use sentence::{Reason, Refusal};
use sheet::{Buffers, Record};
use test_asking::{MOST, ask_into};
use test_calls::{change, sheet_of};
use test_casework::{Sink, byte, field, first, place, signed, within};
use test_render::sheets::told;

// The cells that a long line has room for.
const CELLS: usize = 400000;

// Which fields have the form and the line.
fn places(kind: u8) -> (usize, usize) {
    match kind.to_ascii_uppercase() {
        b'R' | b'T' | b'P' => (0, 1),
        b'W' | b'Q' => (2, 3),
        _ => (1, 2),
    }
}

// A refusal: the recorded ones have no number, but for that of a line that is no UTF-8.
fn refused(kind: u8, f: Refusal, sink: Sink) -> Sink {
    if (kind >= b'a') | (f.reason == Reason::NotUtf8) {
        return test_render::refusal(f, sink);
    }
    sink.put(b'!')
}

// Puts the numbers of a list that commas join, and answers how many there are; a dot is a list of none.
fn scores_of(list: &[u8], scores: &mut [i32]) -> usize {
    if list.is_empty() {
        return 0;
    }
    let whole = list.strip_suffix(b",").unwrap_or(list);
    let items = whole
        .split(|b| *b == b',')
        .take_while(|item| first(item) != b'.');
    scores
        .iter_mut()
        .zip(items)
        .map(|(score, item)| *score = signed(item))
        .count()
}

// The answer on a sentence that was read, after the change that a question asks for.
fn served(line: &[u8], r: Record, buffers: Buffers<'_>, sink: Sink) -> Sink {
    let mut given = [0i32; 16];
    let n = scores_of(field(line, 3), &mut given);
    let scores = within(&given, 0, n);
    let Buffers {
        text,
        types,
        boundaries,
        char_pos,
        byte_pos,
        cell_starts,
        cell_lengths,
        tag_bytes,
    } = buffers;
    let changed = change(
        first(line),
        r,
        text,
        types,
        boundaries,
        char_pos,
        byte_pos,
        cell_starts,
        cell_lengths,
        tag_bytes,
        place(line, 3),
        byte(line, 4),
        scores,
    );
    let left = Buffers {
        text,
        types,
        boundaries,
        char_pos,
        byte_pos,
        cell_starts,
        cell_lengths,
        tag_bytes,
    };
    told(line, changed, &sheet_of(r, &left), sink)
}

// The answer to a question on a line, by way of a sheet that has room for it and for so many cells. Small letters ask only whether it is a
// sentence.
fn by_way<const ROOM: usize>(line: &[u8], sink: Sink) -> Sink
    requires { ROOM < 2 ^ 32 }
{
    let mut buffers = Buffers {
        text: &mut [0; MOST],
        types: &mut [0; MOST],
        boundaries: &mut [0; MOST],
        char_pos: &mut [0; MOST],
        byte_pos: &mut [0; MOST],
        cell_starts: &mut [0; ROOM],
        cell_lengths: &mut [0; ROOM],
        tag_bytes: &mut [0; MOST],
    };
    let kind = first(line);
    let (form_at, line_at) = places(kind);
    let form = first(field(line, form_at)).to_ascii_uppercase();
    match ask_into(false, form, field(line, line_at), &mut buffers) {
        Ok(_) if kind >= b'a' => sink.put(b'='),
        Ok(r) => served(line, r, buffers, sink),
        Err(f) => refused(kind, f, sink),
    }
}

// The answer to a question on a line; a long line has room for more cells.
pub fn ask(line: &[u8], sink: Sink) -> Sink {
    if first(line) == b'L' {
        return by_way::<CELLS>(line, sink);
    }
    by_way::<MOST>(line, sink)
}
