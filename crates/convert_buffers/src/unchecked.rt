// Internal: a conversion by way of buffers that are large enough for the line and its cells; the forms are known.
mod writing;

ghost use Rattle.std.specs.Prelude.{◌≤◌, ◌<◌, false, length};
ghost use Rattle.sentence.specs.Reading.{Annotated, read};
ghost use Rattle.sheet.specs.Answers.{Number};
ghost use Rattle.convert_buffers.specs.Between.{Converts};
ghost use Rattle.convert_buffers.specs.Between.{between as Between·between};
ghost use Rattle.convert_buffers.specs.Through.{Scanned, Wide};
ghost use Rattle.sheet.specs.Views.{contents};

use crate::unchecked::writing::write_as;
use sentence::{Form, NO_ROOM, Refusal};
use sheet::{Buffers, Record, Sheet};

// Lays down the sentence of a line that was scanned, and writes it.
fn through(
    reader: Form,
    writer: Form,
    r: Record,
    line: &[u8],
    out: &mut [u8],
    mut buffers: Buffers<'_>,
) -> Result<usize, Refusal>
    requires { Annotated writer
        × Scanned (read reader line.now) r
        × Wide (length line.now) r.cells (contents buffers) }
    ensures { Converts (λ (c : Number). c)
        (Between·between false false reader writer (length out.old) line.now) 0 out.old result
        out.new }
{
    read_fill::unchecked::fill(reader, r.columns, line, &mut buffers);
    let Buffers {
        text,
        types,
        boundaries,
        char_pos,
        byte_pos,
        cell_starts,
        cell_lengths,
        tag_bytes,
    } = buffers;
    let sheet = Sheet {
        record: r,
        text,
        types,
        boundaries,
        char_pos,
        byte_pos,
        cell_starts,
        cell_lengths,
        tag_bytes,
    };
    write_as(writer, &sheet, out)
}

// A line of fewer than so many bytes and at most so many cells: few zeros are stored for a short one.
fn sized<const PLACES: usize, const CELLS: usize>(
    reader: Form,
    writer: Form,
    r: Record,
    line: &[u8],
    out: &mut [u8],
) -> Result<usize, Refusal>
    requires { Annotated writer × Scanned (read reader line.now) r × (length line.now < PLACES) × (PLACES ≤ 4097) × (r.cells ≤ CELLS) × (CELLS ≤ 2048) }
    ensures { Converts (λ (c : Number). c)
        (Between·between false false reader writer (length out.old) line.now) 0 out.old result
        out.new }
{
    let mut text = [0u8; PLACES];
    let mut types = [0u8; PLACES];
    let mut boundaries = [0u8; PLACES];
    let mut char_pos = [0u16; PLACES];
    let mut byte_pos = [0u16; PLACES];
    let mut cell_starts = [0u16; CELLS];
    let mut cell_lengths = [0u16; CELLS];
    let mut tag_bytes = [0u8; PLACES];
    through(
        reader,
        writer,
        r,
        line,
        out,
        Buffers {
            text: &mut text,
            types: &mut types,
            boundaries: &mut boundaries,
            char_pos: &mut char_pos,
            byte_pos: &mut byte_pos,
            cell_starts: &mut cell_starts,
            cell_lengths: &mut cell_lengths,
            tag_bytes: &mut tag_bytes,
        },
    )
}

// A line of any length. It is scanned first: what refuses it is handed on, and its length and its cells say which room it takes.
pub fn between(reader: Form, writer: Form, line: &[u8], out: &mut [u8]) -> Result<usize, Refusal>
    requires { Annotated writer }
    ensures { Converts (λ (c : Number). c)
        (Between·between false false reader writer (length out.old) line.now) 0 out.old result
        out.new }
{
    let r = read_scan::scan(reader, line)?;
    if 2048 < r.cells {
        return Err(NO_ROOM);
    }
    if (line.len() <= 256) & (r.cells <= 256) {
        return sized::<257, 256>(reader, writer, r, line, out);
    }
    if (line.len() <= 512) & (r.cells <= 512) {
        return sized::<513, 512>(reader, writer, r, line, out);
    }
    sized::<4097, 2048>(reader, writer, r, line, out)
}
