// For a room of at most 64 records: a function that lends a local array of records to `token_list`.
ghost use Rattle.std.specs.Prelude.{◌≤◌, ◌≡◌};
ghost use Rattle.sheet.specs.Views.{held};
ghost use Rattle.tokens.specs.Steps.{count_of};

use sentence::Refusal;
use sheet::Sheet;
use tokens::Token;

// What a list answered, and the records that it holds after the call.
#[derive(Drop)]
pub struct Outcome {
    pub answer: Result<usize, Refusal>,
    pub list: [Token; 64],
}

// The outcome of a list that is filled with room for so many; every record held a mark before it.
pub fn filled(sheet: &Sheet<'_>, room: usize) -> Outcome
    requires { room ≤ 64 }
    ensures { result.answer ≡ count_of sheet.now.record (held sheet.now) room }
{
    let mut list = [Token { start: 1, end: 0 }; 64];
    let answer = tokens::token_list(sheet, &mut list[..room]);
    Outcome { answer, list }
}
