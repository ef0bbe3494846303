// Questions on buffers of given lengths: the answer, and all that the buffers hold after the call.
use sentence::Refusal;
use sheet::{Buffers, Record};
use test_asking::{MOST, ask_into};
use test_casework::{Sink, field, first, listed};

// A record's numbers, or a refusal.
fn told(a: Result<Record, Refusal>, sink: Sink) -> Sink {
    match a {
        Ok(r) => sink
            .put(b'=')
            .number_field(r.n as u64)
            .number_field(r.b as u64)
            .number_field(r.columns as u64)
            .number_field(r.cells as u64)
            .number_field(r.g as u64),
        Err(f) => test_render::refusal(f, sink),
    }
}

// As much of a buffer as is asked for.
fn lent<'a, T>(line: &[u8], k: usize, buffer: &'a mut [T]) -> &'a mut [T] {
    let n = listed(field(line, 3), k).min(buffer.len());
    &mut buffer[..n]
}

// M F LINE ROOMS: a reader; U F LINE ROOMS: an update. The answer, and all that is lent; every cell holds a mark before the call.
pub fn ask(line: &[u8], sink: Sink) -> Sink {
    let mut text = [165u8; MOST];
    let mut types = [165u8; MOST];
    let mut boundaries = [165u8; MOST];
    let mut char_pos = [42405u16; MOST];
    let mut byte_pos = [42405u16; MOST];
    let mut cell_starts = [42405u16; MOST];
    let mut cell_lengths = [42405u16; MOST];
    let mut tag_bytes = [165u8; MOST];
    let mut buffers = Buffers {
        text: lent(line, 0, &mut text),
        types: lent(line, 1, &mut types),
        boundaries: lent(line, 2, &mut boundaries),
        char_pos: lent(line, 3, &mut char_pos),
        byte_pos: lent(line, 4, &mut byte_pos),
        cell_starts: lent(line, 5, &mut cell_starts),
        cell_lengths: lent(line, 6, &mut cell_lengths),
        tag_bytes: lent(line, 7, &mut tag_bytes),
    };
    let update = first(line) == b'U';
    let a = ask_into(update, first(field(line, 1)), field(line, 2), &mut buffers);
    told(a, sink)
        .hex_field(buffers.text)
        .hex_field(buffers.types)
        .hex_field(buffers.boundaries)
        .numbers_field(buffers.char_pos)
        .numbers_field(buffers.byte_pos)
        .numbers_field(buffers.cell_starts)
        .numbers_field(buffers.cell_lengths)
        .hex_field(buffers.tag_bytes)
}
