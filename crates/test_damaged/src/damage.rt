// What a case changes of its sheet: up to three changes joined by `;`, each a letter, an index and a value joined by commas. Besides the
// letters of test_calls there is one for each buffer: its element at the index is the value.
use sheet::{Buffers, Record};
use test_calls::Damage;
use test_casework::{first, item, listed};

// A change.
fn of(change: &[u8]) -> Damage {
    Damage {
        letter: first(change),
        index: listed(change, 1),
        value: listed(change, 2),
    }
}

// Sets an element, where there is one.
fn set_at<T: Copy>(buffer: &mut [T], i: usize, value: T) {
    if i < buffer.len() {
        buffer[i] = value;
    }
}

// Sets the element that a change names.
fn set_by(d: Damage, buffers: &mut Buffers<'_>) {
    let i = d.index;
    let byte = u8::try_from(d.value).unwrap_or(u8::MAX);
    let number = u16::try_from(d.value).unwrap_or(u16::MAX);
    match d.letter {
        b't' => set_at(buffers.text, i, byte),
        b'y' => set_at(buffers.types, i, byte),
        b'm' => set_at(buffers.boundaries, i, byte),
        b'c' => set_at(buffers.char_pos, i, number),
        b'p' => set_at(buffers.byte_pos, i, number),
        b's' => set_at(buffers.cell_starts, i, number),
        b'l' => set_at(buffers.cell_lengths, i, number),
        b'g' => set_at(buffers.tag_bytes, i, byte),
        _ => {}
    }
}

// Sets the elements that a case's changes name.
pub fn set(changes: &[u8], buffers: &mut Buffers<'_>) {
    for change in changes.split(|b| *b == b';').take(3) {
        set_by(of(change), buffers);
    }
}

// As much of each buffer as is lent by a case's changes.
pub fn lend<'a>(changes: &[u8], mut buffers: Buffers<'a>) -> Buffers<'a> {
    for change in changes.split(|b| *b == b';').take(3) {
        buffers = of(change).lend(buffers);
    }
    buffers
}

// The record with what a case changes of it.
pub fn record(changes: &[u8], mut record: Record) -> Record {
    for change in changes.split(|b| *b == b';').take(3) {
        record = of(change).record(record);
    }
    record
}
