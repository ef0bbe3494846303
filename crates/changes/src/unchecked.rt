// The changes for those who have checked the sheet.
ghost use Rattle.std.specs.Prelude.{◌-◌, ◌*◌, ◌≤◌, ◌<◌, length};
ghost use Rattle.sentence.specs.Writing.{set_boundary_of, reset_tags_of};
ghost use Rattle.sheet.specs.Layout.{spell, Sheet, mark_of, lent, lent_before, with_boundaries, with_cells};
ghost use Rattle.changes.specs.Changes.{Laid};

use sentence::Refusal;
use sheet::Record;

// Sets a boundary.
// The buffers come one by one, since the others may be lent to be read alone.
pub fn set_boundary(
    r: Record,
    text: &[u8],
    types: &[u8],
    boundaries: &mut [u8],
    char_pos: &[u16],
    byte_pos: &[u16],
    cell_starts: &[u16],
    cell_lengths: &[u16],
    tag_bytes: &[u8],
    i: usize,
    value: u8,
) -> Result<Record, Refusal>
    requires { Sheet r (lent text.now types.now boundaries.old char_pos.now byte_pos.now cell_starts.now cell_lengths.now tag_bytes.now) × (i < r.n - 1) ×
        (value ≤ 2) }
    ensures { let d = lent_before text.now types.now boundaries.old char_pos.now byte_pos.now cell_starts.now cell_lengths.now tag_bytes.now in
        Laid (set_boundary_of i (mark_of value) (spell r d)) d result (with_boundaries boundaries.new d) }
{
    boundaries[i] = value;
    Ok(r)
}

// Makes all tags absent, and the columns c.
// The buffers come one by one, since the others may be lent to be read alone.
pub fn reset_tags(
    r: Record,
    text: &[u8],
    types: &[u8],
    boundaries: &[u8],
    char_pos: &[u16],
    byte_pos: &[u16],
    cell_starts: &mut [u16],
    cell_lengths: &mut [u16],
    tag_bytes: &[u8],
    c: usize,
) -> Result<Record, Refusal>
    requires { Sheet r (lent text.now types.now boundaries.now char_pos.now byte_pos.now cell_starts.old cell_lengths.old tag_bytes.now)
        × (c ≤ 4096)
        × (r.n * c ≤ length cell_starts.old)
        × (r.n * c ≤ length cell_lengths.old) }
    ensures { let d = lent_before text.now types.now boundaries.now char_pos.now byte_pos.now cell_starts.old cell_lengths.old tag_bytes.now in
        Laid (reset_tags_of c (spell r d)) d result (with_cells cell_starts.new cell_lengths.new d) }
{
    let cells = r.n * c;
    cell_starts[..cells].fill(0);
    cell_lengths[..cells].fill(0);
    Ok(Record {
        columns: c,
        cells,
        g: 0,
        ..r
    })
}
