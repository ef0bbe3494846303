// Asks the public functions about sheets that are damaged, and with numbers that are out of range: each line of the input is
// written back, a case with its answer. A case is five fields: the number of its sheet, what is changed of it, then the call
// and its two numbers. A line that starts with # is no case.
// Sheet 0 has three characters, the second of three bytes, in two columns: the tag x, then an absent tag and a tag of two bytes,
// then none. Sheet 1 is the tokenized line `a//x b/y`. Sheet 2 is `ab`, without columns but with room for three cells. Sheet 3
// is 17 times `a`, without columns but with room for 4,096.
#![tactic(auto)]

mod damage;
mod show;

use sheet::{Buffers, Record};
use std::io::{self, Stdout, Write};
use test_calls::{change, look, sheet_of};
use test_casework::{Sink, byte, field, first, place, read_full};

// The cells of 17 characters in 4,096 columns.
const CELLS: usize = 69632;

// Makes a call, and puts what it answers; of a change what it leaves too. There are at most four scores.
fn call(line: &[u8], record: Record, buffers: Buffers<'_>, sink: Sink) -> Sink {
    let letter = first(field(line, 2));
    let number = place(line, 3);
    match letter {
        b'm' | b'r' | b'p' => {
            let scores = &[-1, 1, 0, 0][..number.min(4)];
            let Buffers {
                text,
                types,
                boundaries,
                char_pos,
                byte_pos,
                cell_starts,
                cell_lengths,
                tag_bytes,
            } = buffers;
            let changed = change(
                letter,
                record,
                text,
                types,
                boundaries,
                char_pos,
                byte_pos,
                cell_starts,
                cell_lengths,
                tag_bytes,
                number,
                byte(line, 4),
                scores,
            );
            let left = Buffers {
                text,
                types,
                boundaries,
                char_pos,
                byte_pos,
                cell_starts,
                cell_lengths,
                tag_bytes,
            };
            show::left(&left, show::answer(changed, sink))
        }
        b'N' => sink,
        _ => {
            let found = look(letter, &sheet_of(record, &buffers), number, place(line, 4));
            show::found(found, sink)
        }
    }
}

// Makes the call of a case on a sheet with what the case changes of it, and as much of each buffer as is lent.
fn damaged(line: &[u8], record: Record, mut buffers: Buffers<'_>, sink: Sink) -> Sink {
    let changes = field(line, 1);
    damage::set(changes, &mut buffers);
    let lent = damage::lend(changes, buffers);
    call(line, damage::record(changes, record), lent, sink)
}

// Sheet 0.
fn mixed(line: &[u8], sink: Sink) -> Sink {
    let record = Record {
        n: 3,
        b: 5,
        columns: 2,
        cells: 6,
        g: 3,
    };
    let buffers = Buffers {
        text: &mut [b'a', 0xe3, 0x81, 0x82, b'b'],
        types: &mut [2, 3, 2],
        boundaries: &mut [0, 1],
        char_pos: &mut [0, 1, 4, 5],
        byte_pos: &mut [0, 1, 0, 0, 2, 3],
        cell_starts: &mut [0, 1, 1, 1, 3, 3],
        cell_lengths: &mut [1, 0, 0, 2, 0, 0],
        tag_bytes: &mut [b'x', 0xc3, 0xa9],
    };
    damaged(line, record, buffers, sink)
}

// Sheet 1.
fn worked(line: &[u8], sink: Sink) -> Sink {
    let record = Record {
        n: 2,
        b: 2,
        columns: 2,
        cells: 4,
        g: 2,
    };
    let buffers = Buffers {
        text: &mut [b'a', b'b'],
        types: &mut [2, 2],
        boundaries: &mut [1],
        char_pos: &mut [0, 1, 2],
        byte_pos: &mut [0, 1, 2],
        cell_starts: &mut [0, 0, 1, 2],
        cell_lengths: &mut [0, 1, 1, 0],
        tag_bytes: &mut [b'x', b'y'],
    };
    damaged(line, record, buffers, sink)
}

// Sheet 2.
fn plain(line: &[u8], sink: Sink) -> Sink {
    let record = Record {
        n: 2,
        b: 2,
        columns: 0,
        cells: 0,
        g: 0,
    };
    let buffers = Buffers {
        text: &mut [b'a', b'b'],
        types: &mut [2, 2],
        boundaries: &mut [0],
        char_pos: &mut [0, 1, 2],
        byte_pos: &mut [0, 1, 2],
        cell_starts: &mut [7; 3],
        cell_lengths: &mut [7; 3],
        tag_bytes: &mut [b'z'],
    };
    damaged(line, record, buffers, sink)
}

// The positions of 17 characters of one byte.
const PLACES: [u16; 18] = [0, 1, 2, 3, 4, 5, 6, 7, 8, 9, 10, 11, 12, 13, 14, 15, 16, 17];

// Sheet 3.
fn wide(line: &[u8], sink: Sink) -> Sink {
    let record = Record {
        n: 17,
        b: 17,
        columns: 0,
        cells: 0,
        g: 0,
    };
    let mut chars = PLACES;
    let mut bytes = PLACES;
    let buffers = Buffers {
        text: &mut [b'a'; 17],
        types: &mut [2; 17],
        boundaries: &mut [0; 16],
        char_pos: &mut chars,
        byte_pos: &mut bytes,
        cell_starts: &mut [0; CELLS],
        cell_lengths: &mut [0; CELLS],
        tag_bytes: &mut [0],
    };
    damaged(line, record, buffers, sink)
}

// The answer to a case.
fn answer(line: &[u8], sink: Sink) -> Sink {
    let to = sink.put(b' ').yes();
    match place(line, 0) {
        0 => mixed(line, to),
        1 => worked(line, to),
        2 => plain(line, to),
        _ => wide(line, to),
    }
}

// Writes a line as a whole, which a sink would not, and behind it its answer if it is a case.
fn show_line(out: Stdout, line: &[u8]) -> io::Result<()> {
    out.write_all(line)?;
    let sink = Sink::new(out);
    let told = if first(line) == b'#' {
        sink
    } else {
        answer(line, sink)
    };
    told.put(b'\n').finish()
}

// Writes each line of a text.
fn run(out: Stdout, text: &[u8]) -> io::Result<()> {
    if text.is_empty() {
        return Ok(());
    }
    let lines = text.strip_suffix(b"\n").unwrap_or(text);
    for line in lines.split(|b| *b == b'\n') {
        show_line(out, line)?;
    }
    Ok(())
}

fn main(rt: HostRuntime) -> io::Result<()> {
    let mut input = [0u8; 65536];
    let n = read_full(&mut rt.stdin(), &mut input)?;
    run(rt.stdout(), &input[..n])
}
