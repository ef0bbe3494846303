// A question: its line read into a sheet, and the key or the copies that it asks for.
ghost use Rattle.std.specs.Prelude.{◌<◌, ◌^◌};

use crate::copies;
use sheet::{Buffers, Sheet};
use std::num::wrapping_add_usize;
use test_asking::ask_into;
use test_calls::{Damage, sheet_of};
use test_casework::{Sink, field, first, place, repeated};
use write::{note_key, write_withheld_text};

// The bytes of a short line.
const SHORT: usize = 256;

// The room of each small buffer: every short line has it.
const SMALL: usize = 257;

// The cells of the small buffers: a short line has no more than 128 characters times 128 columns.
const FEW: usize = 16384;

// The length of the output beside the small buffers.
const LITTLE: usize = 1024;

// The room of each large buffer of the sheet: every line has it, but for its cells.
const LARGE: usize = 4097;

// The cells of the large buffers.
const MANY: usize = 400000;

// The length of the output beside the large buffers.
const MOST: usize = 16384;

// What is changed of the sheet.
fn damage(line: &[u8]) -> Damage {
    Damage {
        letter: first(field(line, 4)),
        index: place(line, 5),
        value: place(line, 6),
    }
}

// The copy of a range.
fn copy(
    sheet: &Sheet<'_>,
    start: usize,
    end: usize,
    room: usize,
    out: &mut [u8],
    sink: Sink,
) -> Sink {
    copies::one(
        |lent| write_withheld_text(sheet, start, end, lent),
        room,
        out,
        sink,
    )
}

// The copies of every range from the one given on, up to one past the characters.
fn all_copies(
    sheet: &Sheet<'_>,
    from: usize,
    to: usize,
    room: usize,
    out: &mut [u8],
    sink: Sink,
) -> Sink {
    let most = sheet.record.n.min(4096) + 2;
    let mut so_far = copy(sheet, from, to, room, out, sink);
    let next = wrapping_add_usize(to, 1);
    if from < most {
        for end in next..most {
            so_far = copy(sheet, from, end, room, out, so_far);
        }
    } else if next < most {
        return so_far;
    }
    for start in wrapping_add_usize(from, 1)..most {
        for end in 0..most {
            so_far = copy(sheet, start, end, room, out, so_far);
        }
    }
    so_far
}

// What a question asks for, out of a sheet.
fn told(line: &[u8], sheet: &Sheet<'_>, out: &mut [u8], sink: Sink) -> Sink {
    let room = place(line, 3);
    match first(line) {
        b'A' => all_copies(sheet, place(line, 7), place(line, 8), room, out, sink),
        b'K' => copies::one(|lent| note_key(sheet, lent), room, out, sink),
        _ => copy(sheet, place(line, 7), place(line, 8), room, out, sink),
    }
}

// The answer to a question by way of buffers with some room, and an output of a length. A sentence has what is changed of its record,
// and as much of each buffer as is lent.
fn by_way<const ROOM: usize, const CELLS: usize, const OUT: usize>(line: &[u8], sink: Sink) -> Sink
    requires { (ROOM < 2 ^ 32) × (CELLS < 2 ^ 32) × (OUT < 2 ^ 32) }
{
    let mut buffers = Buffers {
        text: &mut [0; ROOM],
        types: &mut [0; ROOM],
        boundaries: &mut [0; ROOM],
        char_pos: &mut [0; ROOM],
        byte_pos: &mut [0; ROOM],
        cell_starts: &mut [0; CELLS],
        cell_lengths: &mut [0; CELLS],
        tag_bytes: &mut [0; ROOM],
    };
    let mut out = [0; OUT];
    let d = damage(line);
    match ask_into(false, first(field(line, 1)), field(line, 2), &mut buffers) {
        Ok(r) => told(
            line,
            &sheet_of(d.record(r), &d.lend(buffers)),
            &mut out,
            sink,
        ),
        Err(f) => copies::refused(f, sink),
    }
}

// The answer to a question; the small buffers are cleared sooner.
pub fn ask(line: &[u8], sink: Sink) -> Sink {
    let mut given = [0u8; 5120];
    if (repeated(field(line, 2), &mut given) <= SHORT) & (place(line, 3) <= LITTLE) {
        return by_way::<SMALL, FEW, LITTLE>(line, sink);
    }
    by_way::<LARGE, MANY, MOST>(line, sink)
}
