// The fill of a line that is known to read to a sentence for which there is room, and whose columns are told.
ghost use Rattle.sentence.specs.Reading.{read};
ghost use Rattle.sheet.specs.Layout.{Same};
ghost use Rattle.sheet.specs.Views.{contents, SameRoom};
ghost use Rattle.read_fill.specs.Fill.{Fits, filled};

use read_counts::Counts;
use read_state::State;
use sentence::Form;
use sheet::Buffers;
use std::mem;
use types::blocks::Tables;

// One pass over the line: its characters step the reader again, and what they do is stored.
pub fn fill(form: Form, columns: usize, line: &[u8], buffers: &mut Buffers<'_>)
    requires { Fits (read form line.now) columns (contents buffers.old) }
    ensures filled { Same (filled (read form line.now) (contents buffers.old)) (contents buffers.new) }
    ensures same_room { SameRoom buffers.old buffers.new }
{
    // The slices are this function's own in the loop, so that no store is taken to move them; they go back behind it.
    let mut own = mem::replace(
        buffers,
        Buffers {
            text: &mut [],
            types: &mut [],
            boundaries: &mut [],
            char_pos: &mut [],
            byte_pos: &mut [],
            cell_starts: &mut [],
            cell_lengths: &mut [],
            tag_bytes: &mut [],
        },
    );
    let tables = Tables::new();
    let mut state = State::new();
    let mut counts = Counts::new();
    let mut at = 0;
    // A character has one to four bytes, so no `for` goes over their places.
    while at < line.len() {
        let found = utf8::unchecked::char_at(line, at);
        let end = at + found.len;
        let stepped = read_state::unchecked::follow(state, form, found.value);
        let Ok(act) = stepped.act else { unreachable!() };
        read_stores::unchecked::turn(
            act,
            found.value,
            &line[at..end],
            counts,
            columns,
            &tables,
            &mut own,
        );
        counts.tally(act, found.len);
        state = stepped.state;
        at = end;
    }
    read_stores::unchecked::finish(counts, columns, &mut own);
    *buffers = own;
}
