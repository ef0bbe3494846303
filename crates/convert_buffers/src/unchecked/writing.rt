// A sentence written from the buffers that hold it, where the output has room for its line.
ghost use Rattle.std.specs.Prelude.{◌≤◌, ◌≡◌, length};
ghost use Rattle.sentence.specs.Reading.{Annotated};
ghost use Rattle.sentence.specs.Writing.{written};
ghost use Rattle.sheet.specs.Answers.{Number};
ghost use Rattle.sheet.specs.Views.{spelled, Valid};
ghost use Rattle.write_escape.specs.Wrote.{Lined};
ghost use Rattle.write_items.specs.Items.{short_of};
ghost use Rattle.convert_buffers.specs.Between.{Converts};
ghost use Rattle.convert_buffers.specs.Through.{writing};

use sentence::{Form, Refusal};
use sheet::Sheet;
use write_partial::unchecked::{partial_into, partial_short};
use write_tokenized::unchecked::{tokenized_into, tokenized_short};

// How long the line is, where there is less room.
fn short_as(writer: Form, sheet: &Sheet<'_>, room: usize) -> Option<usize>
    requires { Annotated writer × Valid sheet.now }
    ensures { result ≡ short_of room (length (written writer (spelled sheet.now))) }
{
    match writer {
        // it is no form to write, and is refused before
        Form::Raw => None,
        Form::Tokenized => tokenized_short(sheet, room),
        Form::Partial => partial_short(sheet, room),
    }
}

// The line, where there is room for it.
fn line_as(writer: Form, sheet: &Sheet<'_>, out: &mut [u8]) -> usize
    requires { Annotated writer × Valid sheet.now × (length (written writer (spelled sheet.now)) ≤ length out.old) }
    ensures { Lined (written writer (spelled sheet.now)) out.old out.new result }
{
    match writer {
        // it is no form to write, and is refused before
        Form::Raw => 0,
        Form::Tokenized => tokenized_into(sheet, out),
        Form::Partial => partial_into(sheet, out),
    }
}

// Writes a sentence in one of the two annotated forms.
pub fn write_as(writer: Form, sheet: &Sheet<'_>, out: &mut [u8]) -> Result<usize, Refusal>
    requires { Annotated writer × Valid sheet.now }
    ensures { Converts (λ (c : Number). c) (writing writer (length out.old) (spelled sheet.now)) 0 out.old result out.new }
{
    match short_as(writer, sheet, out.len()) {
        Some(needed) => Err(Refusal::short(needed)),
        None => Ok(line_as(writer, sheet, out)),
    }
}
