// The host's calls: a number's type, a line converted, a line read into lent buffers, a sheet written, its withheld copy, its key, a step of the token
// cursor. Each answers one number; a refusal is 2^63 plus 256 times its place plus its number. Forms are numbers, records five, and buffers come one by
// one, as C gives them.
#![tactic(auto)]

ghost use Rattle.std.specs.Prelude.{◌≡◌, ◌≤◌, length, Ok, OnOk};
ghost use Rattle.laws.specs.Put.{over};
ghost use Rattle.types.specs.TypeOf.{type_of};
ghost use Rattle.sheet.specs.Layout.{lent_after, lent_before};
ghost use Rattle.sheet.specs.Views.{held, contents, SameRoom};
ghost use Rattle.read_load.specs.Load.{Does};
ghost use Rattle.convert_buffers.specs.Between.{Converts};
ghost use Rattle.convert.specs.Convert.{conversion};
ghost use Rattle.exports.specs.Exports.{NearIn, code_of, numbers_of, ReadTold, host_answer, host_leaves, HostReads, record_in, number_code};
ghost use Rattle.exports.specs.Exports.{LineWritten, HostWrites, nearest, nearest_in, HostWithholds, HostKeys, Tells, HostSteps};

use sentence::unchecked::refusal_code;
use sentence::{Form, Refusal};
use sheet::{Buffers, Record, Sheet};
use tokens::Step;
use types::CharacterType;

// The type of any number: 1 to 6, and 6 for one that is no character. Nothing is refused.
pub fn ighdelmur_get_type(c: u32) -> u64
    ensures { result ≡ type_of c }
{
    u64::from(CharacterType::get_type(c).code())
}

// Reads a line in the form `reader` (0 raw, 1 tokenized, 2 partial) and writes it in the form `writer` (1 or 2) into the output, behind the bytes
// before `at`: the end place.
pub fn ighdelmur_convert(reader: u32, writer: u32, line: &[u8], out: &mut [u8], at: usize) -> u64
    ensures { Converts code_of (conversion reader writer line.now (length out.old) at) at out.old result
        out.new }
{
    match convert::convert(reader, writer, line, out, at) {
        Ok(e) => e as u64,
        Err(r) => refusal_code(r),
    }
}

// Stores what a sentence counts in the first five numbers.
fn store(r: Record, numbers: &mut [u64])
    requires { 5 ≤ length numbers.old }
    ensures { numbers.new ≡ over (numbers_of r) numbers.old }
{
    numbers[0] = r.n as u64;
    numbers[1] = r.b as u64;
    numbers[2] = r.columns as u64;
    numbers[3] = r.cells as u64;
    numbers[4] = r.g as u64;
}

// Tells what a reader answered: 0 and the numbers of the sentence, or the refusal.
fn tell_read(answer: Result<Record, Refusal>, numbers: &mut [u64]) -> u64
    requires { OnOk answer (5 ≤ length numbers.old) × NearIn answer }
    ensures { ReadTold answer numbers.old result numbers.new }
{
    match answer {
        Err(refusal) => refusal_code(refusal),
        Ok(r) => {
            store(r, numbers);
            0
        }
    }
}

// Reads a line in a form by its number, for a host with room for so many numbers.
fn read_line(
    form: u32,
    room: usize,
    line: &[u8],
    buffers: &mut Buffers<'_>,
) -> Result<Record, Refusal>
    ensures reads { Does (host_answer form line.now (contents buffers.old) room) (host_leaves form line.now (contents buffers.old) room) result
        (contents buffers.new) }
    ensures same_room { SameRoom buffers.old buffers.new }
{
    let form = Form::try_from(form)?;
    if room < 5 {
        return Err(Refusal::outside(0));
    }
    read_load::load(form, line, buffers)
}

// Reads a line in a form (0 raw, 1 tokenized, 2 partial) into lent buffers: 0, and N, B, columns, cells and G in the first five numbers. 16 is the
// first refusal, then 14 for fewer numbers than five, both at 0; then the reader's.
pub fn ighdelmur_read(
    form: u32,
    line: &[u8],
    text: &mut [u8],
    types: &mut [u8],
    boundaries: &mut [u8],
    char_pos: &mut [u16],
    byte_pos: &mut [u16],
    cell_starts: &mut [u16],
    cell_lengths: &mut [u16],
    tag_bytes: &mut [u8],
    numbers: &mut [u64],
) -> u64
    ensures { HostReads form line.now (lent_before text.old types.old boundaries.old char_pos.old byte_pos.old cell_starts.old cell_lengths.old tag_bytes.old)
        numbers.old result (lent_after text.new types.new boundaries.new char_pos.new byte_pos.new cell_starts.new cell_lengths.new tag_bytes.new) numbers.new }
{
    let room = numbers.len();
    let answer = read_line(
        form,
        room,
        line,
        &mut Buffers {
            text,
            types,
            boundaries,
            char_pos,
            byte_pos,
            cell_starts,
            cell_lengths,
            tag_bytes,
        },
    );
    tell_read(answer, numbers)
}

// Writes a sheet in a form by its number.
fn write_line(form: u32, sheet: &Sheet<'_>, out: &mut [u8]) -> Result<usize, Refusal>
    ensures { LineWritten form sheet.now.record (held sheet.now) out.old result out.new }
{
    match Form::to_write(form)? {
        // it is no form to write, and is refused before
        Form::Raw => Ok(0),
        Form::Tokenized => write::write_tokenized_text(sheet, out),
        Form::Partial => write::write_partial_annotation_text(sheet, out),
    }
}

// Tells what a writer answered: the length, or the refusal.
fn tell_number(answer: Result<usize, Refusal>) -> u64
    requires { NearIn answer }
    ensures { result ≡ number_code answer }
{
    match answer {
        Ok(n) => n as u64,
        Err(q) => refusal_code(q),
    }
}

// Writes a sheet in a form (1 tokenized, 2 partial) at the front of the output: the line's length. 16 at 0 is the first refusal; then the writer's.
pub fn ighdelmur_write(
    form: u32,
    n: usize,
    b: usize,
    columns: usize,
    cells: usize,
    g: usize,
    text: &[u8],
    types: &[u8],
    boundaries: &[u8],
    char_pos: &[u16],
    byte_pos: &[u16],
    cell_starts: &[u16],
    cell_lengths: &[u16],
    tag_bytes: &[u8],
    out: &mut [u8],
) -> u64
    ensures { HostWrites form (record_in n b columns cells g)
        (lent_before text.now types.now boundaries.now char_pos.now byte_pos.now cell_starts.now cell_lengths.now tag_bytes.now) out.old result out.new }
{
    let sheet = Sheet {
        record: Record {
            n,
            b,
            columns,
            cells,
            g,
        },
        text,
        types,
        boundaries,
        char_pos,
        byte_pos,
        cell_starts,
        cell_lengths,
        tag_bytes,
    };
    let answer = write_line(form, &sheet, out);
    tell_number(answer)
}

// A place as the host's number holds it: 2^32 - 1 stands for every place from there on.
fn nearest(place: usize) -> usize
    ensures { result ≡ nearest place }
{
    place.min(4294967295)
}

// An answer with its refusal at such a place.
fn nearest_in(answer: Result<usize, Refusal>) -> Result<usize, Refusal>
    ensures { result ≡ nearest_in answer }
{
    match answer {
        Ok(n) => Ok(n),
        Err(q) => Err(Refusal {
            reason: q.reason,
            place: nearest(q.place),
        }),
    }
}

// Writes the partial line of a sheet with the labels of the characters from `start` up to `end` withheld at the front of the output: the line's
// length. 13 at 0 is the first refusal, then 14 at the start, then 12 at the length; a start from 2^32 - 1 on is told as 2^32 - 1.
pub fn ighdelmur_withhold(
    n: usize,
    b: usize,
    columns: usize,
    cells: usize,
    g: usize,
    text: &[u8],
    types: &[u8],
    boundaries: &[u8],
    char_pos: &[u16],
    byte_pos: &[u16],
    cell_starts: &[u16],
    cell_lengths: &[u16],
    tag_bytes: &[u8],
    start: usize,
    end: usize,
    out: &mut [u8],
) -> u64
    ensures { HostWithholds (record_in n b columns cells g)
        (lent_before text.now types.now boundaries.now char_pos.now byte_pos.now cell_starts.now cell_lengths.now tag_bytes.now) start end out.old result
        out.new }
{
    let sheet = Sheet {
        record: Record {
            n,
            b,
            columns,
            cells,
            g,
        },
        text,
        types,
        boundaries,
        char_pos,
        byte_pos,
        cell_starts,
        cell_lengths,
        tag_bytes,
    };
    let answer = write::write_withheld_text(&sheet, start, end, out);
    tell_number(nearest_in(answer))
}

// Writes the note key of a sheet at the front of the output: the key's length. 13 at 0 is the first refusal, then 12 at the length.
pub fn ighdelmur_key(
    n: usize,
    b: usize,
    columns: usize,
    cells: usize,
    g: usize,
    text: &[u8],
    types: &[u8],
    boundaries: &[u8],
    char_pos: &[u16],
    byte_pos: &[u16],
    cell_starts: &[u16],
    cell_lengths: &[u16],
    tag_bytes: &[u8],
    out: &mut [u8],
) -> u64
    ensures { HostKeys (record_in n b columns cells g)
        (lent_before text.now types.now boundaries.now char_pos.now byte_pos.now cell_starts.now cell_lengths.now tag_bytes.now) out.old result out.new }
{
    let sheet = Sheet {
        record: Record {
            n,
            b,
            columns,
            cells,
            g,
        },
        text,
        types,
        boundaries,
        char_pos,
        byte_pos,
        cell_starts,
        cell_lengths,
        tag_bytes,
    };
    let answer = write::note_key(&sheet, out);
    tell_number(answer)
}

// Tells a step: 1 and the token's start and end, or 0 and where the cursor stands; 14 for a span of fewer numbers than two.
fn tell_step(step: Step, span: &mut [u64]) -> u64
    ensures { Tells (Ok step) span.old result span.new }
{
    if span.len() < 2 {
        return refusal_code(Refusal::outside(0));
    }
    match step {
        // Casts, since the two are u16 of a token and a usize below: one way for all three.
        Step::Serves(t) => {
            span[0] = t.start as u64;
            span[1] = t.end as u64;
            1
        }
        Step::Done { at } => {
            span[0] = at as u64;
            0
        }
    }
}

// The same of a step on a sheet, which may be refused.
fn tell_next(next: Result<Step, Refusal>, span: &mut [u64]) -> u64
    requires { NearIn next }
    ensures { Tells next span.old result span.new }
{
    match next {
        Ok(step) => tell_step(step, span),
        Err(q) => refusal_code(q),
    }
}

// The step of the token cursor at `p`: 1 and the token's start and end at the front of the span, or 0 and where the cursor stands. 13 is the first
// refusal, then 14 for a span of fewer numbers than two, both at 0.
pub fn ighdelmur_next_token(
    n: usize,
    b: usize,
    columns: usize,
    cells: usize,
    g: usize,
    text: &[u8],
    types: &[u8],
    boundaries: &[u8],
    char_pos: &[u16],
    byte_pos: &[u16],
    cell_starts: &[u16],
    cell_lengths: &[u16],
    tag_bytes: &[u8],
    p: usize,
    span: &mut [u64],
) -> u64
    ensures { HostSteps (record_in n b columns cells g)
        (lent_before text.now types.now boundaries.now char_pos.now byte_pos.now cell_starts.now cell_lengths.now tag_bytes.now) p span.old result span.new }
{
    let sheet = Sheet {
        record: Record {
            n,
            b,
            columns,
            cells,
            g,
        },
        text,
        types,
        boundaries,
        char_pos,
        byte_pos,
        cell_starts,
        cell_lengths,
        tag_bytes,
    };
    let next = tokens::next_token(&sheet, p);
    tell_next(next, span)
}
