// The writers of any sheet: each answers the length of the line that it wrote at the front of the output, or 13, or 12 at the length needed; with a
// range 14 at its start comes between.
#![tactic(auto)]

ghost use Rattle.std.specs.Prelude.{◌≡◌};
ghost use Rattle.sentence.specs.declared.Form.TheVariants.{Tokenized as tokenized, Partial as partial};
ghost use Rattle.sheet.specs.Views.{held};
ghost use Rattle.write.specs.Answers.{no_range, Written, Withholds, Keyed};

use sentence::{NO_SHEET, Refusal};
use sheet::Sheet;
use write_partial::unchecked::{
    columns_shown, partial_into, partial_short, shown_into, shown_short,
};
use write_tokenized::unchecked::{tokenized_into, tokenized_short};

// Whether a range is none of n characters: its start is past its end, or its end past them.
fn no_range(start: usize, end: usize, n: usize) -> bool
    ensures { result ≡ no_range start end n }
{
    end < start || n < end
}

// Each writer asks its own length and writes its own line: one writer that both are passed to would be no shorter.

// The tokens, joined by one space, each with all columns of its last character.
pub fn write_tokenized_text(sheet: &Sheet<'_>, out: &mut [u8]) -> Result<usize, Refusal>
    ensures { Written tokenized sheet.now.record (held sheet.now) out.old result out.new }
{
    if !sheet.check() {
        return Err(NO_SHEET);
    }
    if let Some(needed) = tokenized_short(sheet, out.len()) {
        return Err(Refusal::short(needed));
    }
    Ok(tokenized_into(sheet, out))
}

// Each character, its tags, and its boundary.
pub fn write_partial_annotation_text(sheet: &Sheet<'_>, out: &mut [u8]) -> Result<usize, Refusal>
    ensures { Written partial sheet.now.record (held sheet.now) out.old result out.new }
{
    if !sheet.check() {
        return Err(NO_SHEET);
    }
    if let Some(needed) = partial_short(sheet, out.len()) {
        // Nothing is stored before the room is known: a refusal leaves the output.
        return Err(Refusal::short(needed));
    }
    Ok(partial_into(sheet, out))
}

// The partial line with every label of the characters from `start` up to `end` withheld, and only the columns that are in use outside them.
pub fn write_withheld_text(
    sheet: &Sheet<'_>,
    start: usize,
    end: usize,
    out: &mut [u8],
) -> Result<usize, Refusal>
    ensures { Withholds sheet.now.record (held sheet.now) start end out.old result out.new }
{
    if !sheet.check() {
        return Err(NO_SHEET);
    }
    if no_range(start, end, sheet.record.n) {
        return Err(Refusal::outside(start));
    }
    let columns = columns_shown(sheet, start, end);
    if let Some(needed) = shown_short(sheet, columns, start, end, out.len()) {
        return Err(Refusal::short(needed));
    }
    Ok(shown_into(sheet, columns, start, end, out))
}

// The note key, for finding duplicates: the copy that withholds nothing, which has only the columns that are in use.
pub fn note_key(sheet: &Sheet<'_>, out: &mut [u8]) -> Result<usize, Refusal>
    ensures { Keyed sheet.now.record (held sheet.now) out.old result out.new }
{
    write_withheld_text(sheet, 0, 0, out)
}
