// The look-ups for those who have checked the sheet.
ghost use Rattle.std.specs.Prelude.{◌≡◌, true, ◌-◌, ◌≤◌, ◌<◌, Ok, Some};
ghost use Rattle.sentence.specs.Sentence.{rows};
ghost use Rattle.sheet.specs.Views.{spelled, Valid};
ghost use Rattle.lookups.specs.Answers.{start_at, str_to_char_pos_of, mark_at, tag_slice, cell_start, cell, surface_slice};

use sentence::Refusal;
use sheet::{Sheet, Span};

// The byte position of a character.
pub fn char_to_str_pos(sheet: &Sheet<'_>, i: usize) -> usize
    requires { Valid sheet.now × (i ≤ sheet.now.record.n) }
    ensures { result ≡ start_at (spelled sheet.now) i }
{
    usize::from(sheet.char_pos[i])
}

// The character of a byte position, or 14 inside a character.
pub fn str_to_char_pos(sheet: &Sheet<'_>, p: usize) -> Result<usize, Refusal>
    requires { Valid sheet.now × (p ≤ sheet.now.record.b) }
    ensures { result ≡ str_to_char_pos_of true (spelled sheet.now) p }
{
    let i = usize::from(sheet.byte_pos[p]);
    if usize::from(sheet.char_pos[i]) == p {
        return Ok(i);
    }
    Err(Refusal::outside(p))
}

// The number of a boundary.
pub fn boundary(sheet: &Sheet<'_>, i: usize) -> usize
    requires { Valid sheet.now × (i < sheet.now.record.n - 1) }
    ensures { result ≡ mark_at (spelled sheet.now) i }
{
    usize::from(sheet.boundaries[i])
}

// The slice of a tag; an absent one has none.
pub fn tag(sheet: &Sheet<'_>, row: usize, column: usize) -> Option<Span>
    requires { Valid sheet.now × (row < sheet.now.record.n) × (column < sheet.now.record.columns) }
    ensures { Ok result ≡ tag_slice (cell_start (rows (spelled sheet.now)) row column) (cell (spelled sheet.now) row column) }
{
    let j = row * sheet.record.columns + column;
    let start = usize::from(sheet.cell_starts[j]);
    let len = usize::from(sheet.cell_lengths[j]);
    if len == 0 {
        return None;
    }
    Some(Span {
        start,
        end: start + len,
    })
}

// The slice of a surface.
pub fn surface(sheet: &Sheet<'_>, start: usize, end: usize) -> Span
    requires { Valid sheet.now × (start ≤ sheet.now.record.n) × (end ≤ sheet.now.record.n) }
    ensures { Ok (Some result) ≡ surface_slice (spelled sheet.now) start end }
{
    Span {
        start: usize::from(sheet.char_pos[start]),
        end: usize::from(sheet.char_pos[end]),
    }
}
