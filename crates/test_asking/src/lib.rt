// The readers and the updates as questions ask them.
#![tactic(auto)]

use read::{
    from_partial_annotation, from_raw, from_tokenized, update_partial_annotation, update_raw,
    update_tokenized,
};
use sentence::Refusal;
use sheet::{Buffers, Record};
use test_casework::{repeated, within};

// The most room of a buffer: what a line of 4,096 bytes can need, but for its cells.
pub const MOST: usize = 4097;

// Reads the line that runs spell, or updates by it, in the form of a question's letter: letters are matched here alone, and need no enum.
pub fn ask_into(
    update: bool,
    form: u8,
    runs: &[u8],
    buffers: &mut Buffers<'_>,
) -> Result<Record, Refusal> {
    let mut given = [0u8; 5120];
    let n = repeated(runs, &mut given);
    let line = within(&given, 0, n);
    match (update, form) {
        (false, b'R') => from_raw(line, buffers),
        (false, b'T') => from_tokenized(line, buffers),
        (false, _) => from_partial_annotation(line, buffers),
        (true, b'R') => update_raw(line, buffers),
        (true, b'T') => update_tokenized(line, buffers),
        (true, _) => update_partial_annotation(line, buffers),
    }
}
