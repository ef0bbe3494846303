// The decision for those who have checked the sheet.
ghost use Rattle.std.specs.Prelude.{◌≡◌, ◌++◌, map, ◌-◌, ◌≤◌, length, drop};
ghost use Rattle.sentence.specs.Sentence.{code};
ghost use Rattle.sentence.specs.Writing.{decision, scored};
ghost use Rattle.sheet.specs.Layout.{spell, Sheet, lent, lent_before, with_boundaries};
ghost use Rattle.changes.specs.Changes.{Laid};

use sentence::Refusal;
use sheet::Record;

// The number of the boundary that a score makes.
fn decide(score: i32) -> u8
    ensures { result ≡ code (decision score) }
{
    u8::from(score > 0)
}

// Each score decides the boundary at its place.
fn fill(scores: &[i32], boundaries: &mut [u8])
    requires { length scores.now ≤ length boundaries.old }
    ensures { boundaries.new
        ≡ map code (map decision scores.now) ++ drop (length scores.now) boundaries.old }
{
    // By index, since what a zip over `iter_mut` wrote is not known after it.
    for (i, score) in scores.iter().enumerate() {
        boundaries[i] = decide(*score);
    }
}

// Sets every boundary by its score; tags and columns become none.
// The buffers come one by one, since the others may be lent to be read alone.
pub fn predict(
    r: Record,
    text: &[u8],
    types: &[u8],
    boundaries: &mut [u8],
    char_pos: &[u16],
    byte_pos: &[u16],
    cell_starts: &[u16],
    cell_lengths: &[u16],
    tag_bytes: &[u8],
    scores: &[i32],
) -> Result<Record, Refusal>
    requires { Sheet r (lent text.now types.now boundaries.old char_pos.now byte_pos.now cell_starts.now cell_lengths.now tag_bytes.now) ×
        (length scores.now ≡ r.n - 1) }
    ensures { let d = lent_before text.now types.now boundaries.old char_pos.now byte_pos.now cell_starts.now cell_lengths.now tag_bytes.now in
        Laid (scored scores.now (spell r d)) d result (with_boundaries boundaries.new d) }
{
    fill(scores, boundaries);
    Ok(Record {
        columns: 0,
        cells: 0,
        g: 0,
        ..r
    })
}
