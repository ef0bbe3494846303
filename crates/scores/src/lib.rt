// The boundary decision: boundaries by scores.
#![tactic(auto)]

ghost use Rattle.sheet.specs.Layout.{lent_before, with_boundaries};
ghost use Rattle.scores.specs.Scores.{Predicted};

use sentence::{NO_SHEET, Refusal};
use sheet::{Record, Sheet};

pub mod unchecked;

// A boundary is a word's where its score is above zero, else none; tags and columns become none.
// The buffers come one by one, since the others may be lent to be read alone.
pub fn predict(
    r: Record,
    text: &[u8],
    types: &[u8],
    boundaries: &mut [u8],
    char_pos: &[u16],
    byte_pos: &[u16],
    cell_starts: &[u16],
    cell_lengths: &[u16],
    tag_bytes: &[u8],
    scores: &[i32],
) -> Result<Record, Refusal>
    ensures { let d = lent_before text.now types.now boundaries.old char_pos.now byte_pos.now cell_starts.now cell_lengths.now tag_bytes.now in
        Predicted r d scores.now result (with_boundaries boundaries.new d) }
{
    let sheet = Sheet {
        record: r,
        text,
        types,
        boundaries,
        char_pos,
        byte_pos,
        cell_starts,
        cell_lengths,
        tag_bytes,
    };
    if !sheet.check() {
        return Err(NO_SHEET);
    }
    if scores.len() != r.n - 1 {
        return Err(Refusal::outside(scores.len()));
    }
    unchecked::predict(
        r,
        text,
        types,
        boundaries,
        char_pos,
        byte_pos,
        cell_starts,
        cell_lengths,
        tag_bytes,
        scores,
    )
}
