// Internal: each function assumes a checked sheet, or cells and positions that lie in their slices, and the writers room for what they write.
ghost use Rattle.std.specs.Prelude.{◌+◌, ◌*◌, ◌^◌, ◌≤◌, ◌<◌, ◌≡◌, eqb, length};
ghost use Rattle.laws.specs.If.{when◌then◌else◌};
ghost use Rattle.sentence.specs.declared.Form.TheVariants.{Partial as partial};
ghost use Rattle.sentence.specs.Writing.{sign, written};
ghost use Rattle.sentence.specs.Withheld.{in_range, hidden, widest};
ghost use Rattle.sheet.specs.Layout.{mark_of};
ghost use Rattle.sheet.specs.Views.{held, spelled, Valid};
ghost use Rattle.write_items.specs.Items.{count_in, FollowIn, short_of};
ghost use Rattle.write_escape.specs.Wrote.{Wrote, Lined};
ghost use Rattle.write_partial.specs.Line.{Asked, SpreadIn, LieIn, NarrowIn, stretch_in, slashes_in, covered_in, before_in, rest_in, bare_in, line_in};

use sentence::Form;
use sheet::Sheet;
use write_escape::unchecked::{escaped_len, repeat};
use write_items::unchecked::{bytes_before, char_into, most, row_count, text_into, text_len};

// The sign of a boundary.
fn sign_of(m: u8) -> u8
    ensures { result ≡ sign (mark_of m) }
{
    match m {
        0 => b'-',
        1 => b'|',
        _ => b' ',
    }
}

// How many columns are written before a boundary: all before a word boundary, else those of the row.
fn columns_before(m: u8, columns: usize) -> usize
    ensures { result ≡ (when eqb m 1 then columns else 0) }
{
    match m {
        1 => columns,
        _ => 0,
    }
}

// Whether the i-th character is one of those from `start` up to `end`, which are hidden.
fn is_hidden(start: usize, end: usize, i: usize) -> bool
    ensures { result ≡ in_range start end i }
{
    start <= i && i < end
}

// How many tags the i-th row shows: none where it is hidden.
fn tags_shown(sheet: &Sheet<'_>, start: usize, end: usize, i: usize) -> usize
    requires { FollowIn sheet.now (i * sheet.now.record.columns + sheet.now.record.columns) }
    ensures { result ≡ (when in_range start end i then 0 else count_in sheet.now i) }
{
    if is_hidden(start, end, i) {
        return 0;
    }
    row_count(sheet, i)
}

// How many columns have a present tag outside the range; where all of them do, no further row is looked at.
pub fn columns_shown(sheet: &Sheet<'_>, start: usize, end: usize) -> usize
    requires { Valid sheet.now }
    ensures { result ≡ widest (hidden start end 0 (spelled sheet.now).cells) }
{
    let mut columns = 0;
    for i in 0..sheet.record.n {
        if sheet.record.columns <= columns {
            return columns;
        }
        columns = columns.max(tags_shown(sheet, start, end, i));
    }
    columns
}

// How many slashes the characters from `from` up to `upto` have.
fn count_slashes(sheet: &Sheet<'_>, columns: usize, from: usize, upto: usize) -> usize
    requires { LieIn sheet.now upto
        × (from ≤ upto)
        × (upto ≤ length sheet.now.boundaries.now)
        × (slashes_in columns sheet.now from upto < 2 ^ 32) }
    ensures { result ≡ slashes_in columns sheet.now from upto }
{
    let mut sum = 0;
    for i in from..upto {
        if sheet.boundaries[i] == 1 {
            sum += columns;
        } else {
            sum += row_count(sheet, i);
        }
    }
    sum
}

// How many bytes the characters before `start` take, the last of them before an unknown boundary.
fn before_len(sheet: &Sheet<'_>, columns: usize, start: usize) -> usize
    requires { LieIn sheet.now start
        × NarrowIn sheet.now columns 0 start
        × (start ≤ length sheet.now.boundaries.now + 1)
        × (length (before_in columns sheet.now start) < 2 ^ 32) }
    ensures { result ≡ length (before_in columns sheet.now start) }
{
    if start == 0 {
        return 0;
    }
    let last = start - 1;
    let bytes = text_len(sheet, 0, start);
    let slashes = count_slashes(sheet, columns, 0, last);
    let listed = row_count(sheet, last);
    let to = bytes_before(sheet, start);
    let tags = escaped_len(Form::Partial, &sheet.tag_bytes[..to]);
    bytes + start + slashes + listed + tags
}

// How many bytes the characters from `from` on take, up to the last.
fn rest_len(sheet: &Sheet<'_>, columns: usize, from: usize, last: usize) -> usize
    requires { LieIn sheet.now (last + 1)
        × NarrowIn sheet.now columns from (last + 1)
        × (from ≤ last)
        × (last ≤ length sheet.now.boundaries.now)
        × (length (rest_in columns sheet.now from last) < 2 ^ 32) }
    ensures { result ≡ length (rest_in columns sheet.now from last) }
{
    let bytes = text_len(sheet, from, last + 1);
    let slashes = count_slashes(sheet, columns, from, last);
    let start = bytes_before(sheet, from);
    let to = bytes_before(sheet, last + 1);
    let tags = escaped_len(Form::Partial, &sheet.tag_bytes[start..to]);
    bytes + (last - from) + slashes + columns + tags
}

// How long the line is that has so many columns and hides a range.
fn shown_len(sheet: &Sheet<'_>, columns: usize, start: usize, end: usize) -> usize
    requires { Valid sheet.now × Asked sheet.now.record (held sheet.now) columns start end }
    ensures { result ≡ length (line_in columns sheet.now start end) }
{
    let r = sheet.record;
    let last = r.n - 1;
    if start == end {
        return rest_len(sheet, columns, 0, last);
    }
    let before = before_len(sheet, columns, start);
    let bytes = text_len(sheet, start, end);
    if end == r.n {
        return before + bytes + (last - start) + columns;
    }
    let rest = rest_len(sheet, columns, end, last);
    before + bytes + (end - start) + rest
}

// How long that line is, where there is less room; it is measured only where the bound leaves that open.
pub fn shown_short(
    sheet: &Sheet<'_>,
    columns: usize,
    start: usize,
    end: usize,
    room: usize,
) -> Option<usize>
    requires { Valid sheet.now × Asked sheet.now.record (held sheet.now) columns start end }
    ensures { result ≡ short_of room (length (line_in columns sheet.now start end)) }
{
    if most(sheet.record) <= room {
        return None;
    }
    let needed = shown_len(sheet, columns, start, end);
    if room < needed {
        return Some(needed);
    }
    None
}

// The characters from `from` up to `upto` with their tags and boundaries.
fn stretch_into(
    sheet: &Sheet<'_>,
    columns: usize,
    from: usize,
    upto: usize,
    out: &mut [u8],
    at: usize,
) -> usize
    requires { LieIn sheet.now upto
        × (from ≤ upto)
        × (upto ≤ length sheet.now.boundaries.now)
        × (at + length (stretch_in columns sheet.now from upto) ≤ length out.old) }
    ensures { Wrote out.old at (stretch_in columns sheet.now from upto) out.new result }
{
    let mut n = at;
    for i in from..upto {
        let m = sheet.boundaries[i];
        let width = columns_before(m, columns);
        n = char_into(sheet, i, width, out, n);
        out[n] = sign_of(m);
        n += 1;
    }
    n
}

// The characters before `start`, the last of them before an unknown boundary.
fn before_into(sheet: &Sheet<'_>, columns: usize, start: usize, out: &mut [u8]) -> usize
    requires { LieIn sheet.now start
        × (start ≤ length sheet.now.boundaries.now + 1)
        × (length (before_in columns sheet.now start) ≤ length out.old) }
    ensures { Wrote out.old 0 (before_in columns sheet.now start) out.new result }
{
    if start == 0 {
        return 0;
    }
    let last = start - 1;
    let n = stretch_into(sheet, columns, 0, last, out, 0);
    let k = char_into(sheet, last, 0, out, n);
    out[k] = b' ';
    k + 1
}

// The characters from `from` up to `upto` without a label.
fn covered_into(sheet: &Sheet<'_>, from: usize, upto: usize, out: &mut [u8], at: usize) -> usize
    requires { SpreadIn sheet.now upto
        × (from ≤ upto)
        × (at + length (covered_in sheet.now from upto) ≤ length out.old) }
    ensures { Wrote out.old at (covered_in sheet.now from upto) out.new result }
{
    let mut n = at;
    for i in from..upto {
        n = text_into(sheet, i, out, n);
        out[n] = b' ';
        n += 1;
    }
    n
}

// The i-th character with its columns absent.
fn bare_into(sheet: &Sheet<'_>, i: usize, columns: usize, out: &mut [u8], at: usize) -> usize
    requires { SpreadIn sheet.now (i + 1) × (at + length (bare_in columns sheet.now i) ≤ length out.old) }
    ensures { Wrote out.old at (bare_in columns sheet.now i) out.new result }
{
    let n = text_into(sheet, i, out, at);
    repeat(b'/', columns, out, n)
}

// The characters from `from` on, up to the last.
fn rest_into(
    sheet: &Sheet<'_>,
    columns: usize,
    from: usize,
    last: usize,
    out: &mut [u8],
    at: usize,
) -> usize
    requires { LieIn sheet.now (last + 1)
        × (from ≤ last)
        × (last ≤ length sheet.now.boundaries.now)
        × (at + length (rest_in columns sheet.now from last) ≤ length out.old) }
    ensures { Wrote out.old at (rest_in columns sheet.now from last) out.new result }
{
    let n = stretch_into(sheet, columns, from, last, out, at);
    char_into(sheet, last, columns, out, n)
}

// The line that has so many columns and hides a range, at the front of the output.
pub fn shown_into(
    sheet: &Sheet<'_>,
    columns: usize,
    start: usize,
    end: usize,
    out: &mut [u8],
) -> usize
    requires { Valid sheet.now
        × (start ≤ end)
        × (end ≤ sheet.now.record.n)
        × (length (line_in columns sheet.now start end) ≤ length out.old) }
    ensures { Lined (line_in columns sheet.now start end) out.old out.new result }
{
    let r = sheet.record;
    let last = r.n - 1;
    if start == end {
        return rest_into(sheet, columns, 0, last, out, 0);
    }
    let n = before_into(sheet, columns, start, out);
    if end == r.n {
        let k = covered_into(sheet, start, last, out, n);
        return bare_into(sheet, last, columns, out, k);
    }
    let k = covered_into(sheet, start, end, out, n);
    rest_into(sheet, columns, end, last, out, k)
}

// How long the line of the whole sentence is, where there is less room.
pub fn partial_short(sheet: &Sheet<'_>, room: usize) -> Option<usize>
    requires { Valid sheet.now }
    ensures { result ≡ short_of room (length (written partial (spelled sheet.now))) }
{
    shown_short(sheet, sheet.record.columns, 0, 0, room)
}

// The line of the whole sentence, at the front of the output.
pub fn partial_into(sheet: &Sheet<'_>, out: &mut [u8]) -> usize
    requires { Valid sheet.now × (length (written partial (spelled sheet.now)) ≤ length out.old) }
    ensures { Lined (written partial (spelled sheet.now)) out.old out.new result }
{
    shown_into(sheet, sheet.record.columns, 0, 0, out)
}
