// The forms of a line, and what a refused call answers; the definitions of sentences and annotated lines stand in specs/.
#![tactic(auto)]

pub mod unchecked; // unchecked.rt: for a refusal at a small place

ghost use Rattle.std.specs.Prelude.{◌≡◌};
ghost use Rattle.sentence.specs.Forms.{no_reader, no_writer, form_of};
ghost use Rattle.sentence.specs.Refusals.{reason_number, refusal, reader_of, writer_of};

// The form of a line.
#[derive(Clone, Copy, PartialEq, Eq)]
pub enum Form {
    Raw,
    Tokenized,
    Partial,
}

// The form to read of a number: 0 raw, 1 tokenized, 2 partial.
impl TryFrom<u32> for Form {
    type Error = Refusal;

    ghost try_from_gives = { λ number form. form ≡ reader_of number };

    fn try_from(number: u32) -> Result<Self, Refusal> {
        if Form::no_reader(number) {
            return Err(NO_FORM);
        }
        Ok(Form::of(number))
    }
}

impl Form {
    // Whether a number is no form.
    #[tactic(auto, unfolding(crate::specs::Forms::no_reader))]
    pub fn no_reader(number: u32) -> bool
        ensures { result ≡ no_reader number }
    {
        2 < number
    }

    // Whether a number is no form to write.
    #[tactic(auto, unfolding(crate::specs::Forms::no_writer, crate::specs::Forms::no_reader))]
    pub fn no_writer(number: u32) -> bool
        ensures { result ≡ no_writer number }
    {
        (number == 0) | (2 < number)
    }

    // The form of a number: 0 raw, 1 tokenized, any other partial; a call refuses a number that is no form before.
    #[tactic(auto, using(crate::proofs::Forms::is_partial), unfolding(crate::specs::Forms::form_of))]
    pub fn of(number: u32) -> Form
        ensures { result ≡ form_of number }
    {
        match number {
            0 => Form::Raw,
            1 => Form::Tokenized,
            _ => Form::Partial,
        }
    }

    // The form to write of a number: 1 tokenized, 2 partial.
    pub fn to_write(number: u32) -> Result<Form, Refusal>
        ensures { result ≡ writer_of number }
    {
        if Form::no_writer(number) {
            return Err(NO_FORM);
        }
        Ok(Form::of(number))
    }
}

// Why a call is refused.
#[derive(Clone, Copy, PartialEq, Eq)]
pub enum Reason {
    TooLong,
    NotUtf8,
    NoCharacter,
    Nul,
    LeadingSpace,
    SecondSpace,
    StraySlash,
    TrailingSpace,
    BadMark,
    TrailingMark,
    NoRoom,
    Short,
    NoSheet,
    Outside,
    NoBlankRoom,
    NoForm,
}

impl Reason {
    // Its number in the table of refusals.
    pub fn number(self) -> u8
        ensures { result ≡ reason_number self }
    {
        match self {
            Reason::TooLong => 1,
            Reason::NotUtf8 => 2,
            Reason::NoCharacter => 3,
            Reason::Nul => 4,
            Reason::LeadingSpace => 5,
            Reason::SecondSpace => 6,
            Reason::StraySlash => 7,
            Reason::TrailingSpace => 8,
            Reason::BadMark => 9,
            Reason::TrailingMark => 10,
            Reason::NoRoom => 11,
            Reason::Short => 12,
            Reason::NoSheet => 13,
            Reason::Outside => 14,
            Reason::NoBlankRoom => 15,
            Reason::NoForm => 16,
        }
    }
}

// A refusal: why, and at which place.
#[derive(Clone, Copy, PartialEq, Eq)]
pub struct Refusal {
    pub reason: Reason,
    pub place: usize,
}

// The buffers have no room for the sentence that was read.
pub const NO_ROOM: Refusal = Refusal {
    reason: Reason::NoRoom,
    place: 0,
};

// The record and its buffers are no sheet.
pub const NO_SHEET: Refusal = Refusal {
    reason: Reason::NoSheet,
    place: 0,
};

// The buffers have no room for the one-blank sentence, which an update leaves where it is refused.
pub const NO_BLANK_ROOM: Refusal = Refusal {
    reason: Reason::NoBlankRoom,
    place: 0,
};

// A number is no form, or no form to write.
pub const NO_FORM: Refusal = Refusal {
    reason: Reason::NoForm,
    place: 0,
};

impl Refusal {
    // The output is too short; the place is the length needed.
    pub fn short(needed: usize) -> Refusal
        ensures { result ≡ refusal 12 needed }
    {
        Refusal {
            reason: Reason::Short,
            place: needed,
        }
    }

    // A number is out of range; the place is the first number given.
    pub fn outside(first: usize) -> Refusal
        ensures { result ≡ refusal 14 first }
    {
        Refusal {
            reason: Reason::Outside,
            place: first,
        }
    }
}
