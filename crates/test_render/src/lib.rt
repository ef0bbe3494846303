// The fields of an answer, put together from a sheet by the public functions.
#![tactic(auto)]

pub mod lists; // lists.rt: the answers on the list of all tokens
pub mod sheets; // sheets.rt: the answers on a sheet

use lookups::tag;
use sentence::Refusal;
use sheet::{Sheet, Span};
use test_calls::Found;
use test_casework::{Sink, within};
use tokens::{Step, Token, next_token};
use write::{write_partial_annotation_text, write_tokenized_text};

// The cells of a large table, which are read in the buffers: each look-up checks the whole sheet.
const LARGE: usize = 8192;

// The most bytes of a written line.
const ROOM: usize = 131072;

// A refusal: its number and its place.
pub fn refusal(f: Refusal, sink: Sink) -> Sink {
    sink.refused(u64::from(f.reason.number()), f.place as u64)
}

// A number that a call answered.
fn number(n: Result<usize, Refusal>, sink: Sink) -> Sink {
    match n {
        Ok(value) => sink.yes().number(value as u64),
        Err(f) => refusal(f, sink),
    }
}

// Some bytes, or a dash for an absent tag.
fn bytes_of(bytes: &[u8], part: Option<Span>, sink: Sink) -> Sink {
    match part {
        Some(Span { start, end }) => sink.hex(within(bytes, start, end)),
        None => sink.put(b'-'),
    }
}

// A token: its start and its end.
fn token(t: Token, sink: Sink) -> Sink {
    sink.number(u64::from(t.start))
        .put(b'-')
        .number(u64::from(t.end))
}

// A step of the token cursor: the token or a dot, and where the cursor is after it.
fn step_told(s: Step, sink: Sink) -> Sink {
    match s {
        Step::Serves(t) => token(t, sink).number_field(u64::from(t.end)),
        Step::Done { at } => sink.put(b'.').number_field(at as u64),
    }
}

// What a look-up found.
fn found(f: Result<Found, Refusal>, sheet: &Sheet<'_>, sink: Sink) -> Sink {
    match f {
        Ok(Found::Number(n)) => sink.yes().number(n as u64),
        Ok(Found::Text(part)) => bytes_of(sheet.text, part, sink.yes()),
        Ok(Found::Tag(part)) => bytes_of(sheet.tag_bytes, part, sink.yes()),
        Ok(Found::Step(s)) => step_told(s, sink.yes()),
        Err(f) => refusal(f, sink),
    }
}

// A number of a buffer, and 0 where it has none.
fn at(buffer: &[u16], k: usize) -> u16 {
    buffer.get(k).copied().unwrap_or(0)
}

// A cell as the buffers have it.
fn cell(sheet: &Sheet<'_>, k: usize) -> Option<Span> {
    let start = usize::from(at(sheet.cell_starts, k));
    let end = start + usize::from(at(sheet.cell_lengths, k));
    (start < end).then_some(Span { start, end })
}

// The padded table: a comma stands before a cell of a row, a semicolon before a row.
fn rows(sheet: &Sheet<'_>, sink: Sink) -> Sink {
    let r = sheet.record;
    let mut s = sink.put(b' ').dot(r.columns);
    if r.columns == 0 {
        return s;
    }
    for k in 0..r.cells {
        let column = k % r.columns;
        let to = s.joint(k, if column > 0 { b',' } else { b';' });
        let part = if r.cells < LARGE {
            tag(sheet, k / r.columns, column)
        } else {
            Ok(cell(sheet, k))
        };
        s = match part {
            Ok(p) => bytes_of(sheet.tag_bytes, p, to),
            Err(f) => refusal(f, to),
        };
    }
    s
}

// All tokens, by a cursor that starts at 0.
fn tokens_of(sheet: &Sheet<'_>, sink: Sink) -> Sink {
    let mut s = sink.put(b' ');
    let mut p = 0;
    for i in 0..sheet.record.n {
        match next_token(sheet, p) {
            Ok(Step::Serves(t)) => {
                s = token(t, s.joint(i, b','));
                p = usize::from(t.end);
            }
            Ok(Step::Done { at: _ }) => return s.dot(i),
            Err(f) => return refusal(f, s),
        }
    }
    s
}

// Writes the sentence into a room, by the writer of a question's letter, which is matched here alone and needs no enum.
fn write_line(writer: u8, sheet: &Sheet<'_>, room: &mut [u8]) -> Result<usize, Refusal> {
    match writer {
        b'T' => write_tokenized_text(sheet, room),
        _ => write_partial_annotation_text(sheet, room),
    }
}

// A written line, which stands in its room.
fn written(n: Result<usize, Refusal>, room: &[u8], sink: Sink) -> Sink {
    match n {
        Ok(length) => sink.hex_field(within(room, 0, length)),
        Err(f) => refusal(f, sink),
    }
}

// Both written lines.
fn lines_told(sheet: &Sheet<'_>, sink: Sink) -> Sink {
    let mut room = [0u8; ROOM];
    let n = write_tokenized_text(sheet, &mut room);
    let told = written(n, &room, sink);
    let m = write_partial_annotation_text(sheet, &mut room);
    written(m, &room, told)
}

// Text, types and boundaries.
fn characters(sheet: &Sheet<'_>, sink: Sink) -> Sink {
    let r = sheet.record;
    sink.hex(within(sheet.text, 0, r.b))
        .digits_field(within(sheet.types, 0, r.n))
        .digits_field(within(sheet.boundaries, 0, r.n.saturating_sub(1)))
}

// Both position maps, and the columns.
fn positions(sheet: &Sheet<'_>, sink: Sink) -> Sink {
    let r = sheet.record;
    sink.numbers_field(within(sheet.char_pos, 0, r.n.saturating_add(1)))
        .numbers_field(within(sheet.byte_pos, 0, r.b.saturating_add(1)))
        .number_field(r.columns as u64)
}

// The ten fields.
fn fields(sheet: &Sheet<'_>, sink: Sink) -> Sink {
    let laid = positions(sheet, characters(sheet, sink));
    lines_told(sheet, tokens_of(sheet, rows(sheet, laid)))
}
