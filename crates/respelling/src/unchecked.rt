// Internal: the functions below assume room in the output, or places inside a buffer.
mod decimal;
mod line;
mod run;
mod stream;

pub use run::{
    after_read, after_write, answer, goes, keep, read_told, read_told_by, start, write_told,
    write_told_by,
};
