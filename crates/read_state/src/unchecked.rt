// The step of a pass over a line that was read before.
ghost use Rattle.std.specs.Prelude.{◌≡◌};
ghost use Rattle.sentence.specs.Reading.{advance};
ghost use Rattle.read_state.specs.States.{state_of, stepped};

use crate::{Kind, State, Stepped, meaning};
use sentence::Form;

// One character that is no NUL, compiled into the loop of each pass.
#[inline(always)]
pub fn follow(s: State, form: Form, c: u32) -> Stepped
    requires { c ≡ 0 → ⊥ }
    ensures { result ≡ stepped (advance form (state_of s) c) }
{
    if s.escape || s.place.is_literal(form) {
        return s.ordinary(form);
    }
    match meaning(form, c) {
        Kind::Mark(m) => s.boundary(m),
        Kind::Slash => s.slash(),
        Kind::Back => s.backslash(),
        Kind::Plain => s.ordinary(form),
    }
}
