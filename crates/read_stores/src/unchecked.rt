// One act of a line stored, and the line's end, where there is room.
ghost use Rattle.std.specs.Prelude.{◌≡◌, [], ◌∷◌, ◌+◌, ◌-◌, ◌≤◌, length, replicate};
ghost use Rattle.laws.specs.Put.{put};
ghost use Rattle.sentence.specs.Sentence.{code};
ghost use Rattle.sheet.specs.Views.{contents, SameRoom};
ghost use Rattle.read_state.specs.States.{mark_of, act_of};
ghost use Rattle.read_counts.specs.Counts.{Small, opened};
ghost use Rattle.read_stores.specs.Stores.{later, place, open_cell, row_cells, kept, Narrow, CellRoom, RowRoom, Stored, Turning, Finishing};

use read_counts::Counts;
use read_state::{Act, Mark};
use sheet::Buffers;
use types::blocks::Tables;

// A character's bytes at a place. One at a time: for so few, `copy_from_slice` is slower.
#[tactic(auto, using(crate::proofs::Copies::copies))]
fn copy(bytes: &[u8], to: &mut [u8], at: usize)
    requires { (1 ≤ length bytes.now) × (length bytes.now ≤ 4) × (at + length bytes.now ≤ length to.old) }
    ensures { to.new ≡ put to.old at bytes.now }
{
    let len = bytes.len();
    to[at] = bytes[0];
    if len == 1 {
        return;
    }
    to[at + 1] = bytes[1];
    if len == 2 {
        return;
    }
    to[at + 2] = bytes[2];
    if len == 3 {
        return;
    }
    to[at + 3] = bytes[3];
}

// A character's number at its first byte, and 0 at its others. One at a time: for so few, `fill` is slower.
#[tactic(auto, using(crate::proofs::Copies::numbers))]
fn number(n: usize, len: usize, byte_pos: &mut [u16], at: usize)
    requires { (n ≤ 4096) × (1 ≤ len) × (len ≤ 4) × (at + len ≤ length byte_pos.old) }
    ensures { byte_pos.new ≡ put byte_pos.old at (n ∷ replicate (len - 1) 0) }
{
    byte_pos[at] = n as u16;
    if len == 1 {
        return;
    }
    byte_pos[at + 1] = 0;
    if len == 2 {
        return;
    }
    byte_pos[at + 2] = 0;
    if len == 3 {
        return;
    }
    byte_pos[at + 3] = 0;
}

// The boundary before a character, where it is not the first.
#[tactic(auto, using(crate::proofs::Copies::laters))]
fn boundary(n: usize, m: Mark, boundaries: &mut [u8])
    requires { n - 1 + length (later n (code (mark_of m))) ≤ length boundaries.old }
    ensures { boundaries.new ≡ put boundaries.old (n - 1) (later n (code (mark_of m))) }
{
    if n > 0 {
        boundaries[n - 1] = u8::from(m);
    }
}

// Where the next cell goes.
#[tactic(auto, using(crate::proofs::Copies::places))]
fn place(counts: Counts, columns: usize) -> usize
    requires { Small counts 4096 × Narrow columns counts }
    ensures { result ≡ place columns counts }
{
    let n = counts.n;
    if n == 0 {
        return 0;
    }
    (n - 1) * columns + counts.tags as usize
}

// Where the open tag starts among the tag bytes.
fn start(counts: Counts) -> u16
    requires { Small counts 4096 }
    ensures { result ≡ counts.g - counts.long }
{
    (counts.g - usize::from(counts.long)) as u16
}

// The open tag's cell, in both lists of cells; where the next one goes.
#[tactic(auto, using(crate::proofs::Copies::cells))]
fn end_cell(counts: Counts, at: usize, cell_starts: &mut [u16], cell_lengths: &mut [u16]) -> usize
    requires { Small counts 4096 × (at + opened counts.tag ≤ length cell_starts.old) × (at + opened counts.tag ≤ length cell_lengths.old) }
    ensures { (result ≡ at + opened counts.tag)
        × (cell_starts.new ≡ put cell_starts.old at (kept counts.tag ((counts.g - counts.long) ∷ [])))
        × (cell_lengths.new ≡ put cell_lengths.old at (kept counts.tag (counts.long ∷ []))) }
{
    if counts.tag {
        cell_starts[at] = start(counts);
        cell_lengths[at] = counts.long;
        return at + 1;
    }
    at
}

// The open tag ends.
#[tactic(auto, using(crate::proofs::Copies::ends))]
fn end_tag(counts: Counts, columns: usize, cell_starts: &mut [u16], cell_lengths: &mut [u16])
    requires { CellRoom columns counts cell_starts.old cell_lengths.old }
    ensures { (cell_starts.new ≡ put cell_starts.old (place columns counts) (open_cell counts.n counts.tag (counts.g - counts.long)))
        × (cell_lengths.new ≡ put cell_lengths.old (place columns counts) (open_cell counts.n counts.tag counts.long)) }
{
    if counts.n > 0 {
        end_cell(counts, place(counts, columns), cell_starts, cell_lengths);
    }
}

// Absent cells from one place up to another, in both lists of cells. One loop goes over both: two `fill` are slower.
fn absent(start: u16, from: usize, to: usize, cell_starts: &mut [u16], cell_lengths: &mut [u16])
    requires { (to ≤ length cell_starts.old) × (to ≤ length cell_lengths.old) }
    ensures { (cell_starts.new ≡ put cell_starts.old from (replicate (to - from) start))
        × (cell_lengths.new ≡ put cell_lengths.old from (replicate (to - from) 0)) }
{
    for i in from..to {
        cell_starts[i] = start;
        cell_lengths[i] = 0;
    }
}

// The row of the character before ends: the open tag's cell, and absent ones.
#[tactic(auto, using(crate::proofs::Copies::rows))]
fn end_row(counts: Counts, columns: usize, cell_starts: &mut [u16], cell_lengths: &mut [u16])
    requires { RowRoom columns counts cell_starts.old cell_lengths.old }
    ensures { (cell_starts.new ≡ put cell_starts.old (place columns counts) (row_cells columns (counts.g - counts.long) counts.g counts))
        × (cell_lengths.new ≡ put cell_lengths.old (place columns counts) (row_cells columns counts.long 0 counts)) }
{
    if columns == 0 {
        return;
    }
    let n = counts.n;
    if n == 0 {
        return;
    }
    let at = end_cell(counts, place(counts, columns), cell_starts, cell_lengths);
    absent(counts.g as u16, at, n * columns, cell_starts, cell_lengths);
}

// A character of the open tag.
#[tactic(auto, using(crate::proofs::Copies::keeps))]
fn keep(counts: Counts, bytes: &[u8], tag_bytes: &mut [u8])
    requires { (1 ≤ length bytes.now) × (length bytes.now ≤ 4) × (counts.g + length (kept counts.tag bytes.now) ≤ length tag_bytes.old) }
    ensures { tag_bytes.new ≡ put tag_bytes.old counts.g (kept counts.tag bytes.now) }
{
    if counts.tag {
        copy(bytes, tag_bytes, counts.g);
    }
}

// What a character does that has these bytes.
pub fn turn(
    act: Act,
    c: u32,
    bytes: &[u8],
    counts: Counts,
    columns: usize,
    tables: &Tables,
    buffers: &mut Buffers<'_>,
)
    requires { Turning columns (act_of c act) counts bytes.now (contents buffers.old) }
    ensures stored { Stored columns (λ p. p.emit (act_of c act) counts) counts (contents buffers.old) (contents buffers.new) }
    ensures same_room { SameRoom buffers.old buffers.new }
{
    match act {
        Act::Skip => {}
        Act::Letter(m) => {
            let n = counts.n;
            let b = counts.b;
            copy(bytes, buffers.text, b);
            buffers.types[n] = tables.get_type(c);
            boundary(n, m, buffers.boundaries);
            buffers.char_pos[n] = b as u16;
            number(n, bytes.len(), buffers.byte_pos, b);
            end_row(counts, columns, buffers.cell_starts, buffers.cell_lengths);
        }
        Act::Opens => end_tag(counts, columns, buffers.cell_starts, buffers.cell_lengths),
        Act::OfTag => keep(counts, bytes, buffers.tag_bytes),
    }
}

// The line's end.
pub fn finish(counts: Counts, columns: usize, buffers: &mut Buffers<'_>)
    requires { Finishing columns counts (contents buffers.old) }
    ensures stored { Stored columns (λ p. p.last counts) counts (contents buffers.old) (contents buffers.new) }
    ensures same_room { SameRoom buffers.old buffers.new }
{
    let n = counts.n;
    let b = counts.b;
    buffers.char_pos[n] = b as u16;
    buffers.byte_pos[b] = n as u16;
    end_row(counts, columns, buffers.cell_starts, buffers.cell_lengths);
}
