// Changes of a sentence that lies in lent buffers.
#![tactic(auto)]

ghost use Rattle.std.specs.Prelude.{◌≡◌, ◌&&◌, leb};
ghost use Rattle.sheet.specs.Layout.{lent_before, with_boundaries, with_cells};
ghost use Rattle.sheet.specs.Views.{contents, SameRoom};
ghost use Rattle.changes.specs.Changes.{DefaultSet, BoundarySet, TagsReset};

use sentence::{NO_BLANK_ROOM, NO_ROOM, NO_SHEET, Refusal};
use sheet::{Buffers, ONE_BLANK, Record, Sheet};

pub mod unchecked;

// Whether buffers of these lengths have the one-blank sentence's room; boundaries and tags need none.
fn blank_fits(text: usize, types: usize, char_pos: usize, byte_pos: usize) -> bool
    ensures { result ≡ (leb 1 text && leb 1 types && leb 2 char_pos && leb 2 byte_pos) }
{
    (1 <= text) & (1 <= types) & (2 <= char_pos) & (2 <= byte_pos)
}

// Lays the one-blank sentence down.
#[tactic(auto, using(crate::proofs::Blank::blank_refused, crate::proofs::Blank::room_at))]
pub fn set_default(buffers: &mut Buffers<'_>) -> Result<Record, Refusal>
    ensures lays { DefaultSet (contents buffers.old) result (contents buffers.new) }
    ensures same_room { SameRoom buffers.old buffers.new }
{
    if !blank_fits(
        buffers.text.len(),
        buffers.types.len(),
        buffers.char_pos.len(),
        buffers.byte_pos.len(),
    ) {
        return Err(NO_BLANK_ROOM);
    }
    buffers.text[0] = b' ';
    // The number of `CharacterType::Other`, as the buffers hold it; nothing else of that crate is needed here.
    buffers.types[0] = 6;
    buffers.char_pos[0] = 0;
    buffers.char_pos[1] = 1;
    buffers.byte_pos[0] = 0;
    buffers.byte_pos[1] = 1;
    Ok(ONE_BLANK)
}

// Sets boundary i to a value: 0 none, 1 word, 2 unknown.
// The buffers come one by one, since the others may be lent to be read alone.
pub fn set_boundary(
    r: Record,
    text: &[u8],
    types: &[u8],
    boundaries: &mut [u8],
    char_pos: &[u16],
    byte_pos: &[u16],
    cell_starts: &[u16],
    cell_lengths: &[u16],
    tag_bytes: &[u8],
    i: usize,
    value: u8,
) -> Result<Record, Refusal>
    ensures { let d = lent_before text.now types.now boundaries.old char_pos.now byte_pos.now cell_starts.now cell_lengths.now tag_bytes.now in
        BoundarySet r d i value result (with_boundaries boundaries.new d) }
{
    let sheet = Sheet {
        record: r,
        text,
        types,
        boundaries,
        char_pos,
        byte_pos,
        cell_starts,
        cell_lengths,
        tag_bytes,
    };
    if !sheet.check() {
        return Err(NO_SHEET);
    }
    if (i >= r.n - 1) | (value > 2) {
        return Err(Refusal::outside(i));
    }
    unchecked::set_boundary(
        r,
        text,
        types,
        boundaries,
        char_pos,
        byte_pos,
        cell_starts,
        cell_lengths,
        tag_bytes,
        i,
        value,
    )
}

// Makes all tags absent, and the columns c.
// The buffers come one by one, since the others may be lent to be read alone.
pub fn reset_tags(
    r: Record,
    text: &[u8],
    types: &[u8],
    boundaries: &[u8],
    char_pos: &[u16],
    byte_pos: &[u16],
    cell_starts: &mut [u16],
    cell_lengths: &mut [u16],
    tag_bytes: &[u8],
    c: usize,
) -> Result<Record, Refusal>
    ensures { let d = lent_before text.now types.now boundaries.now char_pos.now byte_pos.now cell_starts.old cell_lengths.old tag_bytes.now in
        TagsReset r d c result (with_cells cell_starts.new cell_lengths.new d) }
{
    let sheet = Sheet {
        record: r,
        text,
        types,
        boundaries,
        char_pos,
        byte_pos,
        cell_starts,
        cell_lengths,
        tag_bytes,
    };
    if !sheet.check() {
        return Err(NO_SHEET);
    }
    if c > 4096 {
        return Err(Refusal::outside(c));
    }
    let cells = r.n * c;
    if (cells > cell_starts.len()) | (cells > cell_lengths.len()) {
        return Err(NO_ROOM);
    }
    unchecked::reset_tags(
        r,
        text,
        types,
        boundaries,
        char_pos,
        byte_pos,
        cell_starts,
        cell_lengths,
        tag_bytes,
        c,
    )
}
