// Questions on the list of all tokens: A F LINE.
use sentence::Refusal;
use sheet::Sheet;
use test_casework::Sink;
use test_listing::unchecked::{Outcome, filled};
use tokens::Token;

// A record of a list: its token, or a dot where none was stored.
fn record(t: Token, sink: Sink) -> Sink {
    if t.start < t.end {
        return crate::token(t, sink);
    }
    sink.put(b'.')
}

// What a list answered, and the first so many records that it holds after the call, and one more.
fn told(o: Outcome, n: usize, sink: Sink) -> Sink {
    let mut s = crate::number(o.answer, sink).put(b' ');
    for (i, t) in o.list[..=n.min(63)].iter().enumerate() {
        s = record(*t, s.joint(i, b','));
    }
    s
}

// How many records a list takes: those that it has, or those that it says that it needs.
fn taken(a: Result<usize, Refusal>) -> usize {
    a.unwrap_or_else(|f| f.place)
}

// The list of all tokens with ample room, with room for one record too few, and with none.
pub fn ask(sheet: &Sheet<'_>, sink: Sink) -> Sink {
    let ample = filled(sheet, 64);
    let n = taken(ample.answer);
    let short = filled(sheet, n.saturating_sub(1).min(64));
    let none = filled(sheet, 0);
    let s1 = told(ample, n, sink);
    let s2 = told(short, n, s1.put(b' '));
    told(none, n, s2.put(b' '))
}
