// The state of a reader, stepped by value over the characters of a line.
#![tactic(auto)]

pub mod unchecked;

ghost use Rattle.std.specs.Prelude.{◌≡◌, ℕ};
ghost use Rattle.sentence.specs.Sentence.{code};
ghost use Rattle.sentence.specs.Refusals.{reason_of};
ghost use Rattle.sentence.specs.declared.Form.TheVariants.{Tokenized as tokenized, Partial as partial};
ghost use Rattle.sentence.specs.Reading.{mark, slash, back, at, start, behind, go, letter, kind, ordinary, step};
ghost use Rattle.sentence.specs.Reading.{advance, unfinished, finish};
ghost use Rattle.read_state.specs.States.{mark_of, place_of, state_of, state_in, kind_in, awaits, literal, refuses, stepped, ended};

use sentence::{Form, Reason};

// A boundary between two characters.
#[derive(Clone, Copy)]
pub enum Mark {
    None,
    Word,
    Unknown,
}

// The number of a boundary: 0 none, 1 word, 2 unknown.
impl From<Mark> for u8 {
    ghost from_gives = { λ m number. number ≡ code (mark_of m) };

    #[tactic(auto, unfolding(sentence::specs::Sentence::code))]
    fn from(m: Mark) -> Self {
        match m {
            Mark::None => 0,
            Mark::Word => 1,
            Mark::Unknown => 2,
        }
    }
}

// What a character means where it is not escaped.
#[derive(Clone, Copy)]
pub enum Kind {
    Mark(Mark),
    Slash,
    Back,
    Plain,
}

// What a character does: nothing; it is text, with the boundary before it; it opens a tag; it is of the open tag.
#[derive(Clone, Copy)]
pub enum Act {
    Skip,
    Letter(Mark),
    Opens,
    OfTag,
}

// Where a reader stands: before any text, behind a character, in an open tag, behind a boundary.
#[derive(Clone, Copy)]
pub enum Place {
    Start,
    Behind,
    InTag,
    Gap(Mark),
}

// A reader's place, and whether a backslash makes the next character ordinary.
#[derive(Clone, Copy)]
pub struct State {
    // Each place can stand behind a backslash, so the flag is no part of the place.
    pub escape: bool,
    pub place: Place,
}

// What a step hands back: the next state, and what the character does, or why it is refused.
#[derive(Clone, Copy)]
pub struct Stepped {
    pub state: State,
    // A field, since a `Result` of the whole is packed, and taken apart for each character.
    pub act: Result<Act, Reason>,
}

// As casts, since `From` is no constant function.
const SPACE: u32 = b' ' as u32;

const HYPHEN: u32 = b'-' as u32;

const BAR: u32 = b'|' as u32;

const SLASH: u32 = b'/' as u32;

const BACKSLASH: u32 = b'\\' as u32;

fn tokenized_kind(c: u32) -> Kind
    ensures { result ≡ kind_in (kind tokenized c) }
{
    match c {
        SPACE => Kind::Mark(Mark::Word),
        SLASH => Kind::Slash,
        BACKSLASH => Kind::Back,
        _ => Kind::Plain,
    }
}

fn partial_kind(c: u32) -> Kind
    ensures { result ≡ kind_in (kind partial c) }
{
    match c {
        SPACE => Kind::Mark(Mark::Unknown),
        HYPHEN => Kind::Mark(Mark::None),
        BAR => Kind::Mark(Mark::Word),
        SLASH => Kind::Slash,
        BACKSLASH => Kind::Back,
        _ => Kind::Plain,
    }
}

// What a character means in a form.
#[tactic(auto, unfolding(sentence::specs::Reading::kind))]
pub fn meaning(form: Form, c: u32) -> Kind
    ensures { result ≡ kind_in (kind form c) }
{
    match form {
        Form::Raw => Kind::Plain,
        Form::Tokenized => tokenized_kind(c),
        Form::Partial => partial_kind(c),
    }
}

// Why a line is refused that ends behind a boundary.
#[tactic(auto, unfolding(sentence::specs::Reading::unfinished))]
fn unfinished(form: Form) -> Reason
    ensures { result ≡ reason_of (unfinished form) }
{
    match form {
        Form::Raw => Reason::NoCharacter,
        Form::Tokenized => Reason::TrailingSpace,
        Form::Partial => Reason::TrailingMark,
    }
}

impl Place {
    // A character is awaited: before any text, or behind a boundary.
    fn awaits(self) -> bool
        ensures { result ≡ awaits (place_of self) }
    {
        matches!(self, Place::Start | Place::Gap(_))
    }

    // A character is awaited, and this form takes it literally.
    fn is_literal(self, form: Form) -> bool
        ensures { result ≡ literal form (place_of self) }
    {
        match form {
            Form::Raw => self.awaits(),
            Form::Tokenized => false,
            Form::Partial => self.awaits(),
        }
    }
}

impl State {
    // At a place, and behind no backslash.
    #[tactic(auto, using(crate::proofs::Enums::place_back))]
    fn at(place: Place) -> Self
        ensures { result ≡ state_in (at (place_of place)) }
    {
        State {
            escape: false,
            place,
        }
    }

    // Before any text.
    pub fn new() -> Self
        ensures { result ≡ state_in (at start) }
    {
        State::at(Place::Start)
    }

    // A refusal, beside the state before any text.
    fn refused(reason: Reason) -> Stepped
        ensures { result ≡ refuses reason }
    {
        Stepped {
            state: State::new(),
            act: Err(reason),
        }
    }

    // A character of the text, with the boundary before it.
    #[tactic(auto, using(crate::proofs::Enums::mark_back))]
    fn letter(m: Mark) -> Stepped
        ensures { result ≡ stepped (go (at behind) (letter (mark_of m) 0)) }
    {
        Stepped {
            state: State::at(Place::Behind),
            act: Ok(Act::Letter(m)),
        }
    }

    // An ordinary character: of the open tag, else text; behind another the partial form has none.
    #[tactic(auto, unfolding(sentence::specs::Reading::ordinary))]
    fn ordinary(self, form: Form) -> Stepped
        ensures { (c : ℕ) → result ≡ stepped (ordinary form (place_of self.place) c) }
    {
        match self.place {
            Place::Start => State::letter(Mark::None),
            Place::Gap(m) => State::letter(m),
            Place::InTag => Stepped {
                state: State::at(Place::InTag),
                act: Ok(Act::OfTag),
            },
            Place::Behind => match form {
                Form::Raw => State::letter(Mark::Unknown),
                Form::Tokenized => State::letter(Mark::None),
                Form::Partial => State::refused(Reason::BadMark),
            },
        }
    }

    // A plain boundary: none is right where a token begins.
    #[tactic(auto, unfolding(sentence::specs::Reading::step, sentence::specs::Reading::inside, sentence::specs::Reading::opening))]
    fn boundary(self, m: Mark) -> Stepped
        ensures { result ≡ stepped (step tokenized (at (place_of self.place)) (mark (mark_of m)) 0) }
    {
        match self.place {
            Place::Start => State::refused(Reason::LeadingSpace),
            Place::Gap(_) => State::refused(Reason::SecondSpace),
            _ => Stepped {
                state: State::at(Place::Gap(m)),
                act: Ok(Act::Skip),
            },
        }
    }

    // A plain slash: none is right where a token begins.
    #[tactic(auto, unfolding(sentence::specs::Reading::step, sentence::specs::Reading::inside, sentence::specs::Reading::opening))]
    fn slash(self) -> Stepped
        ensures { result ≡ stepped (step tokenized (at (place_of self.place)) slash 0) }
    {
        if self.place.awaits() {
            return State::refused(Reason::StraySlash);
        }
        Stepped {
            state: State::at(Place::InTag),
            act: Ok(Act::Opens),
        }
    }

    // A plain backslash: the next character is ordinary.
    fn backslash(self) -> Stepped
        ensures { result ≡ stepped (step tokenized (at (place_of self.place)) back 0) }
    {
        Stepped {
            state: State {
                escape: true,
                place: self.place,
            },
            act: Ok(Act::Skip),
        }
    }

    // One character: the next state and what the character does, or why it is refused.
    pub fn step(self, form: Form, c: u32) -> Stepped
        ensures { result ≡ stepped (advance form (state_of self) c) }
    {
        if c == 0 {
            return State::refused(Reason::Nul);
        }
        unchecked::follow(self, form, c)
    }

    // The line's end; a lone backslash is dropped.
    #[tactic(auto, using(crate::proofs::Steps::finish_place), unfolding(sentence::specs::Reading::ending))]
    pub fn end(self, form: Form) -> Result<(), Reason>
        ensures { result ≡ ended (finish form (state_of self)) }
    {
        match self.place {
            Place::Start => Err(Reason::NoCharacter),
            Place::Gap(_) => Err(unfinished(form)),
            _ => Ok(()),
        }
    }
}
