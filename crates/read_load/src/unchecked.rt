// The room that a record needs.
ghost use Rattle.std.specs.Prelude.{◌≡◌};
ghost use Rattle.sheet.specs.Layout.{room_for};
ghost use Rattle.sheet.specs.Views.{contents};

use sheet::{Buffers, Record};

// Whether buffers have the room that a record needs.
pub fn has_room(r: Record, buffers: &Buffers<'_>) -> bool
    ensures { result ≡ room_for r (contents buffers.now) }
{
    (r.b <= buffers.text.len())
        & (r.n <= buffers.types.len())
        & (r.n <= buffers.boundaries.len() + 1)
        & (r.n < buffers.char_pos.len())
        & (r.b < buffers.byte_pos.len())
        & (r.cells <= buffers.cell_starts.len())
        & (r.cells <= buffers.cell_lengths.len())
        & (r.g <= buffers.tag_bytes.len())
}
