// One line of any form into eight lent buffers.
#![tactic(auto)]

pub mod unchecked; // unchecked.rt: for the crates that read

ghost use Rattle.sentence.specs.Reading.{read};
ghost use Rattle.sheet.specs.Views.{contents, SameRoom};
ghost use Rattle.read_load.specs.Load.{ReadDoes};

use sentence::{Form, NO_ROOM, Refusal};
use sheet::{Buffers, Record};

// A line of a form: what refuses it is found first, then the room, and only then is anything stored.
pub fn load(form: Form, line: &[u8], buffers: &mut Buffers<'_>) -> Result<Record, Refusal>
    ensures loads { ReadDoes (read form line.now) (contents buffers.old) result (contents buffers.new) }
    ensures same_room { SameRoom buffers.old buffers.new }
{
    let r = read_scan::scan(form, line)?;
    if !unchecked::has_room(r, buffers) {
        return Err(NO_ROOM);
    }
    read_fill::unchecked::fill(form, r.columns, line, buffers);
    Ok(r)
}
