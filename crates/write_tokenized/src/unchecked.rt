// Internal: each function assumes a checked sheet, and the writer room for the line.
ghost use Rattle.std.specs.Prelude.{◌+◌, ◌≤◌, ◌≡◌, length};
ghost use Rattle.sentence.specs.declared.Form.TheVariants.{Tokenized as tokenized};
ghost use Rattle.sentence.specs.Writing.{written};
ghost use Rattle.sheet.specs.Views.{spelled, Valid};
ghost use Rattle.write_items.specs.Items.{short_of};
ghost use Rattle.write_escape.specs.Wrote.{Wrote, Lined};
ghost use Rattle.write_tokenized.specs.Gaps.{gap};

use sheet::Sheet;
use tokens::Step;
use tokens::unchecked::next_token;
use write_items::unchecked::{most, token_into, token_len};

// A space before a token that is not the first.
fn gap_into(some: bool, out: &mut [u8], at: usize) -> usize
    requires { at + length (gap some) ≤ length out.old }
    ensures { Wrote out.old at (gap some) out.new result }
{
    if some {
        out[at] = b' ';
        return at + 1;
    }
    at
}

// How long the line is.
pub fn tokenized_len(sheet: &Sheet<'_>) -> usize
    requires { Valid sheet.now }
    ensures { result ≡ length (written tokenized (spelled sheet.now)) }
{
    let mut sum = 0;
    let mut p = 0;
    let mut some = false;
    while let Step::Serves(t) = next_token(sheet.boundaries, sheet.record.n, p) {
        let b = usize::from(t.start);
        let e = usize::from(t.end);
        sum += usize::from(some) + token_len(sheet, b, e);
        some = true;
        p = e;
    }
    sum
}

// How long the line is, where there is less room; it is measured only where the bound leaves that open.
pub fn tokenized_short(sheet: &Sheet<'_>, room: usize) -> Option<usize>
    requires { Valid sheet.now }
    ensures { result ≡ short_of room (length (written tokenized (spelled sheet.now))) }
{
    if most(sheet.record) <= room {
        return None;
    }
    let needed = tokenized_len(sheet);
    if room < needed {
        return Some(needed);
    }
    None
}

// The line, at the front of the output.
pub fn tokenized_into(sheet: &Sheet<'_>, out: &mut [u8]) -> usize
    requires { Valid sheet.now × (length (written tokenized (spelled sheet.now)) ≤ length out.old) }
    ensures { Lined (written tokenized (spelled sheet.now)) out.old out.new result }
{
    let mut n = 0;
    let mut p = 0;
    let mut some = false;
    while let Step::Serves(t) = next_token(sheet.boundaries, sheet.record.n, p) {
        let b = usize::from(t.start);
        let e = usize::from(t.end);
        n = gap_into(some, out, n);
        n = token_into(sheet, b, e, out, n);
        some = true;
        p = e;
    }
    n
}
