// Puts the answers.
use sentence::Refusal;
use sheet::{Buffers, Record, Span};
use test_calls::Found;
use test_casework::Sink;

// Puts a refusal: its number and its place.
fn refusal(f: Refusal, sink: Sink) -> Sink {
    sink.put(b'!')
        .number(u64::from(f.reason.number()))
        .number_field(f.place as u64)
}

// Puts what a look-up found: a number, or where a slice starts and ends.
pub fn found(f: Result<Found, Refusal>, sink: Sink) -> Sink {
    match f {
        Ok(Found::Number(n)) => sink.number(n as u64),
        Ok(Found::Text(Some(Span { start, end })) | Found::Tag(Some(Span { start, end }))) => {
            sink.number(start as u64).number_field(end as u64)
        }
        Ok(Found::Text(None) | Found::Tag(None)) => sink.text(b"absent"),
        Ok(Found::Step(_)) => sink,
        Err(f) => refusal(f, sink),
    }
}

// Puts the numbers of a record.
pub fn answer(a: Result<Record, Refusal>, sink: Sink) -> Sink {
    match a {
        Ok(r) => sink
            .number(r.n as u64)
            .number_field(r.b as u64)
            .number_field(r.columns as u64)
            .number_field(r.cells as u64)
            .number_field(r.g as u64),
        Err(f) => refusal(f, sink),
    }
}

// The first eight elements of a buffer, or all.
fn head<T>(buffer: &[T]) -> &[T] {
    &buffer[..buffer.len().min(8)]
}

// Puts what a change left of the buffers that it may alter: as much as is lent, eight elements at the most.
pub fn left(buffers: &Buffers<'_>, sink: Sink) -> Sink {
    sink.digits_field(head(buffers.boundaries))
        .numbers_field(head(buffers.cell_starts))
        .numbers_field(head(buffers.cell_lengths))
}
