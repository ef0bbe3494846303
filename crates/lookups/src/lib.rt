// Look-ups in a sentence that lies in lent buffers. Each answers 13 where there is no sheet, then 14 where a number is out of range.
// Each has limits and an answer of its own: one for all would be no shorter.
#![tactic(auto)]

ghost use Rattle.std.specs.Prelude.{◌≡◌};
ghost use Rattle.sheet.specs.Views.{spelled, is_valid};
ghost use Rattle.lookups.specs.Answers.{char_to_str_pos_of, str_to_char_pos_of, boundary_at, tag_at, surface_at};

use sentence::{NO_SHEET, Refusal};
use sheet::{Sheet, Span};

pub mod unchecked;

// The byte position of character i.
pub fn char_to_str_pos(sheet: &Sheet<'_>, i: usize) -> Result<usize, Refusal>
    ensures { result ≡ char_to_str_pos_of (is_valid sheet.now) (spelled sheet.now) i }
{
    let r = sheet.record;
    if !sheet.check() {
        return Err(NO_SHEET);
    }
    if i > r.n {
        return Err(Refusal::outside(i));
    }
    Ok(unchecked::char_to_str_pos(sheet, i))
}

// The character of byte position p.
pub fn str_to_char_pos(sheet: &Sheet<'_>, p: usize) -> Result<usize, Refusal>
    ensures { result ≡ str_to_char_pos_of (is_valid sheet.now) (spelled sheet.now) p }
{
    let r = sheet.record;
    if !sheet.check() {
        return Err(NO_SHEET);
    }
    if p > r.b {
        return Err(Refusal::outside(p));
    }
    unchecked::str_to_char_pos(sheet, p)
}

// The number of boundary i.
pub fn boundary(sheet: &Sheet<'_>, i: usize) -> Result<usize, Refusal>
    ensures { result ≡ boundary_at (is_valid sheet.now) (spelled sheet.now) i }
{
    let r = sheet.record;
    if !sheet.check() {
        return Err(NO_SHEET);
    }
    if i >= r.n - 1 {
        return Err(Refusal::outside(i));
    }
    Ok(unchecked::boundary(sheet, i))
}

// The slice of a cell's tag in the tag bytes.
pub fn tag(sheet: &Sheet<'_>, row: usize, column: usize) -> Result<Option<Span>, Refusal>
    ensures { result ≡ tag_at (is_valid sheet.now) (spelled sheet.now) row column }
{
    let r = sheet.record;
    if !sheet.check() {
        return Err(NO_SHEET);
    }
    if (row >= r.n) | (column >= r.columns) {
        return Err(Refusal::outside(row));
    }
    Ok(unchecked::tag(sheet, row, column))
}

// The slice of the text from one character up to another.
pub fn surface(sheet: &Sheet<'_>, start: usize, end: usize) -> Result<Option<Span>, Refusal>
    ensures { result ≡ surface_at (is_valid sheet.now) (spelled sheet.now) start end }
{
    let r = sheet.record;
    if !sheet.check() {
        return Err(NO_SHEET);
    }
    if (start >= end) | (end > r.n) {
        return Err(Refusal::outside(start));
    }
    Ok(Some(unchecked::surface(sheet, start, end)))
}
