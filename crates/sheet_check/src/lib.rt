// The passes of a sheet's check, each over slices of the buffers that are the whole of what a record counts.
#![tactic(auto)]

ghost use Rattle.std.specs.Prelude.{◌+◌, ◌-◌, ◌≤◌, ◌<◌, ◌≡◌, ◌↔◌, IsTrue, All, length, take, drop};
ghost use Rattle.sheet_check.specs.Passes.{is_plain, is_char, CharFits, is_text, Places, are_marks, is_cell, cells_to, are_cells, are_absent, Row};

use types::blocks::Tables;
use utf8::Decoded;

// Nothing but 0 at the inner bytes of a character.
fn inner_zero(d: &[u16], at: usize, len: usize) -> bool
    requires { (1 ≤ len) × (at + len ≤ length d.now) }
    ensures { IsTrue result ↔ All (λ x. x ≡ 0) (take (at + len - (at + 1)) (drop (at + 1) d.now)) }
{
    d[at + 1..at + len].iter().all(|number| *number == 0)
}

// A character with its type, its start, its number, and 0 at its inner bytes; each test returns, so that the proof goes test by test. What it is given
// has no name of its own: a struct of it would be made for each character and taken apart here.
fn is_char(
    value: u32,
    kind: u8,
    i: usize,
    at: usize,
    len: usize,
    types: &[u8],
    char_pos: &[u16],
    byte_pos: &[u16],
) -> bool
    requires { CharFits i at len types.now char_pos.now byte_pos.now }
    ensures { result ≡ is_char value kind i at len types.now char_pos.now byte_pos.now }
{
    if value == 0 {
        return false;
    }
    if kind != types[i] {
        return false;
    }
    if at != usize::from(char_pos[i]) {
        return false;
    }
    if i != usize::from(byte_pos[at]) {
        return false;
    }
    inner_zero(byte_pos, at, len)
}

// The text, its types and its positions, where there are as many positions as there should be.
fn is_placed(text: &[u8], types: &[u8], char_pos: &[u16], byte_pos: &[u16]) -> bool
    requires { Places text.now types.now char_pos.now byte_pos.now }
    ensures { result ≡ is_text text.now types.now char_pos.now byte_pos.now }
{
    let tables = Tables::new();
    let mut at = 0;
    let mut i = 0;
    // A character has one to four bytes, so no `for` goes over their places.
    while at < text.len() {
        match utf8::decode(text, at) {
            Decoded::Char { value, len } => {
                if i >= types.len() {
                    return false;
                }
                let kind = tables.get_type(value);
                if !is_char(value, kind, i, at, len, types, char_pos, byte_pos) {
                    return false;
                }
                at += len;
                i += 1;
            }
            Decoded::Bad | Decoded::End => return false,
        }
    }
    (i == types.len()) & (at == usize::from(char_pos[i])) & (i == usize::from(byte_pos[at]))
}

// The text, its types and its positions.
pub fn is_text(text: &[u8], types: &[u8], char_pos: &[u16], byte_pos: &[u16]) -> bool
    ensures { result ≡ is_text text.now types.now char_pos.now byte_pos.now }
{
    if char_pos.len() != types.len() + 1 {
        return false;
    }
    if byte_pos.len() != text.len() + 1 {
        return false;
    }
    is_placed(text, types, char_pos, byte_pos)
}

// The boundaries; all are looked at, since an early end is slower.
pub fn are_marks(marks: &[u8]) -> bool
    ensures { result ≡ are_marks marks.now }
{
    let mut ok = true;
    for mark in marks {
        ok &= *mark <= 2;
    }
    ok
}

// UTF-8 without NUL.
fn is_plain(s: &[u8]) -> bool
    ensures { result ≡ is_plain s.now }
{
    let mut at = 0;
    // A character has one to four bytes, so no `for` goes over their places.
    while at < s.len() {
        if s[at] == 0 {
            return false;
        }
        match utf8::decode(s, at) {
            Decoded::Char { value: _, len } => at += len,
            Decoded::Bad | Decoded::End => return false,
        }
    }
    true
}

// A cell behind `from` tag bytes, by the start and the length that are told of it.
fn is_cell(bytes: &[u8], from: usize, start: u16, len: u16) -> bool
    requires { from ≤ length bytes.now }
    ensures { result ≡ is_cell bytes.now from start len }
{
    if usize::from(start) != from {
        return false;
    }
    if len == 0 {
        return true;
    }
    let to = from + usize::from(len);
    if to > bytes.len() {
        return false;
    }
    is_plain(&bytes[from..to])
}

// The cells from byte `start` to byte `end`, one by one.
fn each_cell(bytes: &[u8], start: usize, end: usize, starts: &[u16], lengths: &[u16]) -> bool
    requires { Row start bytes.now starts.now lengths.now }
    ensures { result ≡ cells_to bytes.now end start starts.now lengths.now }
{
    let mut from = start;
    for (told, len) in starts.iter().zip(lengths) {
        if !is_cell(bytes, from, *told, *len) {
            return false;
        }
        from += usize::from(*len);
    }
    from == end
}

// Absent cells; all are looked at, since an early end is slower.
fn are_absent(start: u16, starts: &[u16], lengths: &[u16]) -> bool
    ensures { result ≡ are_absent start starts.now lengths.now }
{
    let mut ok = true;
    for (told, len) in starts.iter().zip(lengths) {
        ok &= (*told == start) & (*len == 0);
    }
    ok
}

// A row of cells from byte `start` to byte `end`: where it ends as it starts, all are absent.
fn is_row(bytes: &[u8], start: u16, end: u16, starts: &[u16], lengths: &[u16]) -> bool
    requires { Row start bytes.now starts.now lengths.now }
    ensures { result ≡ cells_to bytes.now end start starts.now lengths.now }
{
    if start == end {
        return are_absent(start, starts, lengths);
    }
    each_cell(bytes, usize::from(start), usize::from(end), starts, lengths)
}

// The cells in rows of so many; the last may have fewer. The slices are cut by hand, since a row ends where the next one starts.
fn are_rows(columns: usize, bytes: &[u8], starts: &[u16], lengths: &[u16]) -> bool
    requires { (1 ≤ columns) × (length starts.now ≡ length lengths.now) }
    ensures { result ≡ are_cells bytes.now 0 starts.now lengths.now }
{
    let n = starts.len();
    let mut from = 0;
    let mut i = 0;
    while n - i > columns {
        let next = i + columns;
        let to = starts[next];
        if !is_row(bytes, from, to, &starts[i..next], &lengths[i..next]) {
            return false;
        }
        from = to;
        i = next;
    }
    each_cell(
        bytes,
        usize::from(from),
        bytes.len(),
        &starts[i..],
        &lengths[i..],
    )
}

// The cells, by their starts and lengths; short rows are not worth a look of their own.
pub fn are_cells(columns: usize, bytes: &[u8], starts: &[u16], lengths: &[u16]) -> bool
    ensures { result ≡ are_cells bytes.now 0 starts.now lengths.now }
{
    if starts.len() != lengths.len() {
        return false;
    }
    if columns < 8 {
        return each_cell(bytes, 0, bytes.len(), starts, lengths);
    }
    are_rows(columns, bytes, starts, lengths)
}
