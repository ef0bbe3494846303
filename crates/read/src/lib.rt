// The readers: a line of each form into eight lent buffers.
#![tactic(auto)]

ghost use Rattle.sentence.specs.declared.Form.TheVariants.{Raw as raw, Tokenized as tokenized, Partial as partial};
ghost use Rattle.sentence.specs.Reading.{read};
ghost use Rattle.sheet.specs.Views.{contents, SameRoom};
ghost use Rattle.read_load.specs.Load.{ReadDoes};
ghost use Rattle.read.specs.Read.{UpdateDoes};

use sentence::{Form, NO_BLANK_ROOM, Refusal};
use sheet::{Buffers, ONE_BLANK, Record};

// The same over a sentence that is there: where the line is refused, the one-blank sentence is laid down.
fn update(form: Form, line: &[u8], buffers: &mut Buffers<'_>) -> Result<Record, Refusal>
    ensures updates { UpdateDoes (read form line.now) (contents buffers.old) result (contents buffers.new) }
    ensures same_room { SameRoom buffers.old buffers.new }
{
    if !read_load::unchecked::has_room(ONE_BLANK, buffers) {
        return Err(NO_BLANK_ROOM);
    }
    let answer = read_load::load(form, line, buffers);
    if answer.is_err() {
        let _ = changes::set_default(buffers);
    }
    answer
}

// Each form has two names, those of the Rust: they stay six functions.
// A line of plain text: all boundaries are unknown, and there are no tags.
pub fn from_raw(line: &[u8], buffers: &mut Buffers<'_>) -> Result<Record, Refusal>
    ensures reads { ReadDoes (read raw line.now) (contents buffers.old) result (contents buffers.new) }
    ensures same_room { SameRoom buffers.old buffers.new }
{
    read_load::load(Form::Raw, line, buffers)
}

// A line of tokens with tags.
pub fn from_tokenized(line: &[u8], buffers: &mut Buffers<'_>) -> Result<Record, Refusal>
    ensures reads { ReadDoes (read tokenized line.now) (contents buffers.old) result (contents buffers.new) }
    ensures same_room { SameRoom buffers.old buffers.new }
{
    read_load::load(Form::Tokenized, line, buffers)
}

// A line of characters with tags and marks.
pub fn from_partial_annotation(line: &[u8], buffers: &mut Buffers<'_>) -> Result<Record, Refusal>
    ensures reads { ReadDoes (read partial line.now) (contents buffers.old) result (contents buffers.new) }
    ensures same_room { SameRoom buffers.old buffers.new }
{
    read_load::load(Form::Partial, line, buffers)
}

// The same line over a sentence that is there, or the one-blank sentence.
pub fn update_raw(line: &[u8], buffers: &mut Buffers<'_>) -> Result<Record, Refusal>
    ensures updates { UpdateDoes (read raw line.now) (contents buffers.old) result (contents buffers.new) }
    ensures same_room { SameRoom buffers.old buffers.new }
{
    update(Form::Raw, line, buffers)
}

pub fn update_tokenized(line: &[u8], buffers: &mut Buffers<'_>) -> Result<Record, Refusal>
    ensures updates { UpdateDoes (read tokenized line.now) (contents buffers.old) result (contents buffers.new) }
    ensures same_room { SameRoom buffers.old buffers.new }
{
    update(Form::Tokenized, line, buffers)
}

pub fn update_partial_annotation(line: &[u8], buffers: &mut Buffers<'_>) -> Result<Record, Refusal>
    ensures updates { UpdateDoes (read partial line.now) (contents buffers.old) result (contents buffers.new) }
    ensures same_room { SameRoom buffers.old buffers.new }
{
    update(Form::Partial, line, buffers)
}
