// Internal: each function assumes that the cells it goes by follow one another and lie in their buffers, and that the output has room.
ghost use Rattle.std.specs.Prelude.{◌+◌, ◌-◌, ◌*◌, ◌^◌, ◌≤◌, ◌<◌, ◌≡◌, length, get_or};
ghost use Rattle.sentence.specs.declared.Form.TheVariants.{Tokenized as tokenized};
ghost use Rattle.write_escape.specs.Wrote.{Wrote};
ghost use Rattle.write_items.specs.Items.{Lie, FollowIn, RowIn, TextIn, count_in, bytes_in, tags_in, row_in, text_in, char_in, token_in};
ghost use Rattle.write_items.specs.Items.{Limited, most_of};

use sentence::Form;
use sheet::{Record, Sheet};
use write_escape::unchecked::{copy, copy_escaped, escaped_len, repeat};

// Where the k-th cell ends among the tag bytes.
fn end_of(sheet: &Sheet<'_>, k: usize) -> usize
    requires { (k < length sheet.now.cell_starts.now) × (k < length sheet.now.cell_lengths.now) }
    ensures { result ≡ get_or sheet.now.cell_starts.now k 0 + get_or sheet.now.cell_lengths.now k 0 }
{
    usize::from(sheet.cell_starts[k]) + usize::from(sheet.cell_lengths[k])
}

// How many tag bytes stand before the k-th cell.
fn bytes_to(sheet: &Sheet<'_>, k: usize) -> usize
    requires { FollowIn sheet.now k }
    ensures { result ≡ bytes_in sheet.now k }
{
    if k == 0 {
        return 0;
    }
    end_of(sheet, k - 1)
}

// How many tag bytes stand before the i-th row.
pub fn bytes_before(sheet: &Sheet<'_>, i: usize) -> usize
    requires { FollowIn sheet.now (i * sheet.now.record.columns) }
    ensures { result ≡ bytes_in sheet.now (i * sheet.now.record.columns) }
{
    bytes_to(sheet, i * sheet.record.columns)
}

// How many tags the i-th row lists: its cells up to the last that has a length. A row without tags is told by its first and last cell alone.
pub fn row_count(sheet: &Sheet<'_>, i: usize) -> usize
    requires { FollowIn sheet.now (i * sheet.now.record.columns + sheet.now.record.columns) }
    ensures { result ≡ count_in sheet.now i }
{
    let stride = sheet.record.columns;
    if stride == 0 {
        return 0;
    }
    let k = i * stride;
    let last = k + (stride - 1);
    if sheet.cell_lengths[last] > 0 {
        return stride;
    }
    if sheet.cell_starts[k] == sheet.cell_starts[last] {
        return 0;
    }
    // A loop by hand: with `rposition` a row takes longer.
    let mut n = stride - 1;
    while n > 0 {
        if sheet.cell_lengths[k + (n - 1)] > 0 {
            return n;
        }
        n -= 1;
    }
    0
}

// The tags of the cells from `k` up to `end`, each behind a slash.
fn tags_into(
    form: Form,
    sheet: &Sheet<'_>,
    k: usize,
    end: usize,
    out: &mut [u8],
    at: usize,
) -> usize
    requires { (k ≤ end)
        × Lie sheet.now.cell_starts.now sheet.now.cell_lengths.now end (length sheet.now.tag_bytes.now)
        × (at + length (tags_in form sheet.now k end) ≤ length out.old) }
    ensures { Wrote out.old at (tags_in form sheet.now k end) out.new result }
{
    let mut n = at;
    for j in k..end {
        let from = usize::from(sheet.cell_starts[j]);
        let to = end_of(sheet, j);
        out[n] = b'/';
        n = copy_escaped(form, &sheet.tag_bytes[from..to], out, n + 1);
    }
    n
}

// The tags of the i-th row, and absent ones up to `columns`, each behind a slash; it is compiled into the loop over characters.
#[inline(always)]
fn row_into(
    form: Form,
    sheet: &Sheet<'_>,
    i: usize,
    columns: usize,
    out: &mut [u8],
    at: usize,
) -> usize
    requires { RowIn sheet.now i × (at + length (row_in form columns sheet.now i) ≤ length out.old) }
    ensures { Wrote out.old at (row_in form columns sheet.now i) out.new result }
{
    let listed = row_count(sheet, i);
    let k = i * sheet.record.columns;
    let n = tags_into(form, sheet, k, k + listed, out, at);
    if listed < columns {
        return repeat(b'/', columns - listed, out, n);
    }
    n
}

// The bytes of the characters from `b` up to `e`.
fn text_of<'a>(sheet: &Sheet<'a>, b: usize, e: usize) -> &'a [u8]
    requires { TextIn sheet.now b e }
    ensures { result.now ≡ text_in sheet.now b e }
{
    let from = usize::from(sheet.char_pos[b]);
    let to = usize::from(sheet.char_pos[e]);
    &sheet.text[from..to]
}

// The i-th character alone.
pub fn text_into(sheet: &Sheet<'_>, i: usize, out: &mut [u8], at: usize) -> usize
    requires { TextIn sheet.now i (i + 1) × (at + length (text_in sheet.now i (i + 1)) ≤ length out.old) }
    ensures { Wrote out.old at (text_in sheet.now i (i + 1)) out.new result }
{
    copy(text_of(sheet, i, i + 1), out, at)
}

// How many bytes the characters from `b` up to `e` take.
pub fn text_len(sheet: &Sheet<'_>, b: usize, e: usize) -> usize
    requires { (b < length sheet.now.char_pos.now)
        × (e < length sheet.now.char_pos.now)
        × (get_or sheet.now.char_pos.now b 0 ≤ get_or sheet.now.char_pos.now e 0) }
    ensures { result ≡ get_or sheet.now.char_pos.now e 0 - get_or sheet.now.char_pos.now b 0 }
{
    usize::from(sheet.char_pos[e]) - usize::from(sheet.char_pos[b])
}

// The i-th character as the partial form writes it, with its tags; it is compiled into the loop that calls it.
#[inline(always)]
pub fn char_into(sheet: &Sheet<'_>, i: usize, columns: usize, out: &mut [u8], at: usize) -> usize
    requires { TextIn sheet.now i (i + 1) × RowIn sheet.now i × (at + length (char_in columns sheet.now i) ≤ length out.old) }
    ensures { Wrote out.old at (char_in columns sheet.now i) out.new result }
{
    let n = text_into(sheet, i, out, at);
    row_into(Form::Partial, sheet, i, columns, out, n)
}

// The characters from `b` up to `e` as the tokenized form writes a token, with the tags of its last character.
pub fn token_into(sheet: &Sheet<'_>, b: usize, e: usize, out: &mut [u8], at: usize) -> usize
    requires { (1 ≤ e)
        × TextIn sheet.now b e
        × RowIn sheet.now (e - 1)
        × (at + length (token_in sheet.now b e) ≤ length out.old) }
    ensures { Wrote out.old at (token_in sheet.now b e) out.new result }
{
    let n = copy_escaped(Form::Tokenized, text_of(sheet, b, e), out, at);
    row_into(Form::Tokenized, sheet, e - 1, sheet.record.columns, out, n)
}

// How many bytes the tags of the i-th row take with all columns, each behind a slash.
fn row_len(sheet: &Sheet<'_>, i: usize) -> usize
    requires { RowIn sheet.now i × (length (row_in tokenized sheet.now.record.columns sheet.now i) < 2 ^ 32) }
    ensures { result ≡ length (row_in tokenized sheet.now.record.columns sheet.now i) }
{
    let columns = sheet.record.columns;
    let k = i * columns;
    let from = bytes_to(sheet, k);
    let to = bytes_to(sheet, k + columns);
    columns + escaped_len(Form::Tokenized, &sheet.tag_bytes[from..to])
}

// How many bytes the characters from `b` up to `e` take as a token.
pub fn token_len(sheet: &Sheet<'_>, b: usize, e: usize) -> usize
    requires { (1 ≤ e)
        × TextIn sheet.now b e
        × RowIn sheet.now (e - 1)
        × (length (token_in sheet.now b e) < 2 ^ 32) }
    ensures { result ≡ length (token_in sheet.now b e) }
{
    escaped_len(Form::Tokenized, text_of(sheet, b, e)) + row_len(sheet, e - 1)
}

// A length that no line of the sheet exceeds.
pub fn most(r: Record) -> usize
    requires { Limited r }
    ensures { result ≡ most_of r }
{
    2 * r.b + r.n * (r.columns + 1) + 2 * r.g
}
