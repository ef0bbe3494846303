// The calls on a sheet that a question asks for, each with its small answer by value; and what a case changes of a sheet.
#![tactic(auto)]

ghost use Rattle.std.specs.Prelude.{◌≤◌};

use changes::{reset_tags, set_boundary};
use lookups::{boundary, char_to_str_pos, str_to_char_pos, surface, tag};
use scores::predict;
use sentence::Refusal;
use sheet::{Buffers, Record, Sheet, Span};
use tokens::{Step, next_token};

// What a look-up found: a number, a part of the text or of the tags, or a step of the token cursor.
#[derive(Clone, Copy)]
pub enum Found {
    Number(usize),
    Text(Option<Span>),
    Tag(Option<Span>),
    Step(Step),
}

// What is changed of a sheet. N, B, C, E, G: that number of the record is the value, C the columns and E the cells. L: of the
// buffer with the index only so many elements are lent.
// Letters are the questions' own, here and below, and each is matched in one place: an enum of them would be matched a second time.
#[derive(Clone, Copy)]
pub struct Damage {
    pub letter: u8,
    pub index: usize,
    pub value: usize,
}

impl Damage {
    // The record with what is changed of it.
    pub fn record(self, whole: Record) -> Record {
        match self.letter {
            b'N' => Record {
                n: self.value,
                ..whole
            },
            b'B' => Record {
                b: self.value,
                ..whole
            },
            b'C' => Record {
                columns: self.value,
                ..whole
            },
            b'E' => Record {
                cells: self.value,
                ..whole
            },
            b'G' => Record {
                g: self.value,
                ..whole
            },
            _ => whole,
        }
    }

    // How much of a buffer is lent.
    pub fn lent(self, index: usize, whole: usize) -> usize
        ensures { result ≤ whole }
    {
        if (self.letter == b'L') & (self.index == index) {
            return self.value.min(whole);
        }
        whole
    }

    // As much of a buffer as is lent.
    fn part<'a, T>(self, index: usize, buffer: &'a mut [T]) -> &'a mut [T] {
        let n = self.lent(index, buffer.len());
        &mut buffer[..n]
    }

    // As much of each buffer as is lent.
    pub fn lend<'a>(self, whole: Buffers<'a>) -> Buffers<'a> {
        Buffers {
            text: self.part(0, whole.text),
            types: self.part(1, whole.types),
            boundaries: self.part(2, whole.boundaries),
            char_pos: self.part(3, whole.char_pos),
            byte_pos: self.part(4, whole.byte_pos),
            cell_starts: self.part(5, whole.cell_starts),
            cell_lengths: self.part(6, whole.cell_lengths),
            tag_bytes: self.part(7, whole.tag_bytes),
        }
    }
}

// A record beside the buffers that hold its sentence.
pub fn sheet_of<'a>(record: Record, buffers: &'a Buffers<'_>) -> Sheet<'a> {
    Sheet {
        record,
        text: buffers.text,
        types: buffers.types,
        boundaries: buffers.boundaries,
        char_pos: buffers.char_pos,
        byte_pos: buffers.byte_pos,
        cell_starts: buffers.cell_starts,
        cell_lengths: buffers.cell_lengths,
        tag_bytes: buffers.tag_bytes,
    }
}

// The change of a question's letter: a boundary is set, tags are reset, or boundaries follow scores; other letters ask for none.
// The buffers come one by one, since those that no change alters may be lent to be read alone.
pub fn change(
    letter: u8,
    record: Record,
    text: &[u8],
    types: &[u8],
    boundaries: &mut [u8],
    char_pos: &[u16],
    byte_pos: &[u16],
    cell_starts: &mut [u16],
    cell_lengths: &mut [u16],
    tag_bytes: &[u8],
    number: usize,
    value: u8,
    scores: &[i32],
) -> Result<Record, Refusal> {
    match letter {
        b'B' | b'm' => set_boundary(
            record,
            text,
            types,
            boundaries,
            char_pos,
            byte_pos,
            cell_starts,
            cell_lengths,
            tag_bytes,
            number,
            value,
        ),
        b'C' | b'r' => reset_tags(
            record,
            text,
            types,
            boundaries,
            char_pos,
            byte_pos,
            cell_starts,
            cell_lengths,
            tag_bytes,
            number,
        ),
        b'S' | b'p' => predict(
            record,
            text,
            types,
            boundaries,
            char_pos,
            byte_pos,
            cell_starts,
            cell_lengths,
            tag_bytes,
            scores,
        ),
        _ => Ok(record),
    }
}

// The look-up of a question's letter, or N: a step of the token cursor. The numbers are the question's first and second.
pub fn look(letter: u8, sheet: &Sheet<'_>, one: usize, two: usize) -> Result<Found, Refusal> {
    match letter {
        b't' => tag(sheet, one, two).map(Found::Tag),
        b'u' => surface(sheet, one, two).map(Found::Text),
        b'N' => next_token(sheet, one).map(Found::Step),
        b'c' => char_to_str_pos(sheet, one).map(Found::Number),
        b's' => str_to_char_pos(sheet, one).map(Found::Number),
        _ => boundary(sheet, one).map(Found::Number),
    }
}
