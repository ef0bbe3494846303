// One pass over a line: it is tested to be UTF-8, its characters step the reader, and what they do is counted.
#![tactic(auto)]

ghost use Rattle.std.specs.Prelude.{◌≡◌, ◌+◌, ◌≤◌, length, drop, Err};
ghost use Rattle.sentence.specs.Reading.{read, finish};
ghost use Rattle.utf8.specs.Utf8.{valid_prefix};
ghost use Rattle.read_state.specs.States.{state_of};
ghost use Rattle.read_counts.specs.Counts.{Small};
ghost use Rattle.read_scan.specs.Scan.{because, scanned, told, or_invalid};

use read_counts::Counts;
use read_state::State;
use sentence::{Form, Reason, Refusal};
use sheet::Record;
use utf8::Decoded;

// The most bytes of a line.
const LONGEST: usize = 4096;

// A step was refused at a place up to which the line is UTF-8; what is not UTF-8 behind it comes first.
fn stopped(line: &[u8], at: usize, reason: Reason) -> Refusal
    requires { (at + valid_prefix (drop at line.now) ≡ valid_prefix line.now) × (at ≤ length line.now) }
    ensures { Err result ≡ or_invalid line.now (Err (because reason at)) }
{
    let valid = at + utf8::valid_up_to(&line[at..]);
    if valid < line.len() {
        Refusal {
            reason: Reason::NotUtf8,
            place: valid,
        }
    } else {
        Refusal { reason, place: at }
    }
}

// The line's end, at its length.
fn finished(form: Form, state: State, counts: Counts, at: usize) -> Result<Record, Refusal>
    requires { Small counts 4096 }
    ensures { result ≡ told at counts (finish form (state_of state)) }
{
    match state.end(form) {
        Ok(()) => Ok(counts.total()),
        Err(reason) => Err(Refusal { reason, place: at }),
    }
}

// The record of the sentence that a line reads to, or its refusal.
pub fn scan(form: Form, line: &[u8]) -> Result<Record, Refusal>
    ensures { result ≡ scanned (read form line.now) }
{
    if line.len() > LONGEST {
        return Err(Refusal {
            reason: Reason::TooLong,
            place: LONGEST,
        });
    }
    let mut state = State::new();
    let mut counts = Counts::new();
    let mut at = 0;
    // A character has one to four bytes, so no `for` goes over their places.
    loop {
        match utf8::decode(line, at) {
            Decoded::Char { value, len } => {
                let stepped = state.step(form, value);
                match stepped.act {
                    Ok(act) => {
                        counts.tally(act, len);
                        state = stepped.state;
                    }
                    Err(reason) => return Err(stopped(line, at, reason)),
                }
                at += len;
            }
            Decoded::Bad => {
                return Err(Refusal {
                    reason: Reason::NotUtf8,
                    place: at,
                });
            }
            Decoded::End => {
                return finished(form, state, counts, at);
            }
        }
    }
}
