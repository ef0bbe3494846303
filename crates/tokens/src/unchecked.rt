// The cursor over the boundaries of a checked sheet with `n` characters. No other buffer is looked at, so stepping through a line is linear.
ghost use Rattle.std.specs.Prelude.{◌≡◌, ◌<◌, length};
ghost use Rattle.sentence.specs.Writing.{token, serves, next_token_of, tokens_from};
ghost use Rattle.tokens.specs.Steps.{step_of, marks_in, Bounded};

use super::{Step, Token};

// The token from `start` to `end` as a step serves it.
fn served(start: usize, end: usize) -> Step
    requires { (start < 65536) × (end < 65536) }
    ensures { result ≡ step_of (serves (token start end)) }
{
    Step::Serves(Token {
        start: start as u16,
        end: end as u16,
    })
}

// The first token from `p` on that has no unknown boundary; one is taken to begin at `p`. A boundary is 0 none, 1 word, 2 unknown.
#[tactic(auto, using(crate::proofs::Cursor::scans))]
pub fn next_token(boundaries: &[u8], n: usize, p: usize) -> Step
    requires { Bounded n boundaries.now }
    ensures { result ≡ step_of (next_token_of (marks_in n boundaries.now) n p) }
{
    if n <= p {
        return Step::Done { at: p };
    }
    let mut known = true;
    let mut start = p;
    for end in p + 1..n {
        let mark = boundaries[end - 1];
        if (mark == 1) & known {
            return served(start, end);
        } else if mark == 1 {
            known = true;
            start = end;
        } else if mark != 0 {
            known = false;
        }
    }
    if known {
        return served(start, n);
    }
    Step::Done { at: n }
}

// How many tokens the sentence has.
pub fn count_tokens(boundaries: &[u8], n: usize) -> usize
    requires { Bounded n boundaries.now }
    ensures { result ≡ length (tokens_from (marks_in n boundaries.now) 0) }
{
    let mut count = 0;
    let mut p = 0;
    while let Step::Serves(t) = next_token(boundaries, n, p) {
        p = usize::from(t.end);
        count += 1;
    }
    count
}
