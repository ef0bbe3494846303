// The answers on a sheet: its sentence after a change, or one field of it.
use sentence::Refusal;
use sheet::{Record, Sheet};
use test_calls::look;
use test_casework::{Sink, field, first, place};

// What stands before the fields.
fn head(a: Result<Record, Refusal>, sink: Sink) -> Sink {
    match a {
        Ok(_) => sink.yes(),
        Err(f) => crate::refusal(f, sink).put(b' '),
    }
}

// L: N, B, columns, and the length and the sum of the fields, which are only counted.
fn long_told(sheet: &Sheet<'_>, sink: Sink) -> Sink {
    let r = sheet.record;
    let fields = crate::fields(sheet, Sink::quiet());
    sink.put(b'=')
        .number_field(r.n as u64)
        .number_field(r.b as u64)
        .number_field(r.columns as u64)
        .number_field(fields.count as u64)
        .number_field(u64::from(fields.sum))
}

// W WRITER F LINE ROOM: a line written into an output of a given length, and all that the output holds after it.
fn write_case(line: &[u8], sheet: &Sheet<'_>, sink: Sink) -> Sink {
    let mut room = [165u8; 64];
    let n = place(line, 4).min(64);
    let a = crate::write_line(first(field(line, 1)), sheet, &mut room[..n]);
    crate::number(a, sink).hex_field(&room[..n])
}

// The answer to a question on a sentence that was read, after the change that it asks for: what is asked of it, or its fields; where
// the change was refused, the refusal and the fields as they were.
// N F LINE PLACE: a step of the token cursor. Q WHICH F LINE NUMBERS: a look-up.
pub fn told(line: &[u8], changed: Result<Record, Refusal>, sheet: &Sheet<'_>, sink: Sink) -> Sink {
    let now = Sheet {
        record: changed.unwrap_or(sheet.record),
        ..*sheet
    };
    match first(line) {
        b'A' => crate::lists::ask(sheet, sink),
        b'W' => write_case(line, sheet, sink),
        b'N' => crate::found(look(b'N', sheet, place(line, 3), 0), sheet, sink),
        b'Q' => {
            let found = look(first(field(line, 1)), sheet, place(line, 4), place(line, 5));
            crate::found(found, sheet, sink)
        }
        b'L' => long_told(&now, sink),
        _ => crate::fields(&now, head(changed, sink)),
    }
}
