// Tokens: a cursor that each step hands back, and the list of all tokens of a sentence.
#![tactic(auto)]

pub mod unchecked; // unchecked.rt: for a sheet that was checked

ghost use Rattle.std.specs.Prelude.{◌≡◌};
ghost use Rattle.sheet.specs.Views.{held};
ghost use Rattle.tokens.specs.Steps.{next_of, count_of, Listed};

use sentence::{NO_SHEET, Refusal};
use sheet::Sheet;

// A token: the number of its first character, and of the one after its last.
#[derive(Clone, Copy)]
pub struct Token {
    pub start: u16,
    pub end: u16,
}

// What a step of the cursor answers: a token, whose end is the next cursor, or that it is done and where.
// No `Option`, since it says where it is done; no `Result`, since to be done is no failure.
#[derive(Clone, Copy)]
pub enum Step {
    Serves(Token),
    Done { at: usize },
}

// The step of the cursor at `p`.
#[tactic(auto, using(crate::proofs::Answers::answers))]
pub fn next_token(sheet: &Sheet<'_>, p: usize) -> Result<Step, Refusal>
    ensures { result ≡ next_of sheet.now.record (held sheet.now) p }
{
    if !sheet.check() {
        return Err(NO_SHEET);
    }
    Ok(unchecked::next_token(sheet.boundaries, sheet.record.n, p))
}

// How many records a list of all tokens takes, or what refuses a list with `room` for so many.
#[tactic(auto, using(crate::proofs::Answers::answers))]
fn needed(sheet: &Sheet<'_>, room: usize) -> Result<usize, Refusal>
    ensures { result ≡ count_of sheet.now.record (held sheet.now) room }
{
    if !sheet.check() {
        return Err(NO_SHEET);
    }
    let count = unchecked::count_tokens(sheet.boundaries, sheet.record.n);
    if room < count {
        return Err(Refusal::short(count));
    }
    Ok(count)
}

// Fills a lent list with all tokens from position 0, in their order; answers how many.
pub fn token_list(sheet: &Sheet<'_>, list: &mut [Token]) -> Result<usize, Refusal>
    ensures { Listed sheet.now.record (held sheet.now) list.old result list.new }
{
    let count = needed(sheet, list.len())?;
    let mut p = 0;
    for place in &mut list[..count] {
        if let Step::Serves(t) = unchecked::next_token(sheet.boundaries, sheet.record.n, p) {
            *place = t;
            p = usize::from(t.end);
        }
    }
    Ok(count)
}
