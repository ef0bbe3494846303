// The host's calls under the names that C links: each calls the function of that name of `exports`, and states its clause again. Numbers and slices come
// as C gives them.
#![tactic(auto)]

ghost use Rattle.std.specs.Prelude.{◌≡◌, length};
ghost use Rattle.types.specs.TypeOf.{type_of};
ghost use Rattle.sheet.specs.Layout.{lent_after, lent_before};
ghost use Rattle.convert_buffers.specs.Between.{Converts};
ghost use Rattle.convert.specs.Convert.{conversion};
ghost use Rattle.exports.specs.Exports.{code_of, HostReads, record_in, HostWrites, HostWithholds, HostKeys, HostSteps};

// The type of any number: 1 to 6, and 6 for one that is no character. Nothing is refused.
#[unsafe(no_mangle)]
pub extern "C" fn ighdelmur_get_type(c: u32) -> u64
    ensures { result ≡ type_of c }
{
    exports::ighdelmur_get_type(c)
}

// Reads a line in the form `reader` (0 raw, 1 tokenized, 2 partial) and writes it in the form `writer` (1 or 2) into the output, behind the bytes
// before `at`: the end place.
#[unsafe(no_mangle)]
pub extern "C" fn ighdelmur_convert(
    reader: u32,
    writer: u32,
    line: &[u8],
    out: &mut [u8],
    at: usize,
) -> u64
    ensures { Converts code_of (conversion reader writer line.now (length out.old) at) at out.old result
        out.new }
{
    exports::ighdelmur_convert(reader, writer, line, out, at)
}

// Reads a line in a form (0 raw, 1 tokenized, 2 partial) into lent buffers: 0, and N, B, columns, cells and G in the first five numbers. 16 is the
// first refusal, then 14 for fewer numbers than five, both at 0; then the reader's.
#[unsafe(no_mangle)]
pub extern "C" fn ighdelmur_read(
    form: u32,
    line: &[u8],
    text: &mut [u8],
    types: &mut [u8],
    boundaries: &mut [u8],
    char_pos: &mut [u16],
    byte_pos: &mut [u16],
    cell_starts: &mut [u16],
    cell_lengths: &mut [u16],
    tag_bytes: &mut [u8],
    numbers: &mut [u64],
) -> u64
    ensures { HostReads form line.now (lent_before text.old types.old boundaries.old char_pos.old byte_pos.old cell_starts.old cell_lengths.old tag_bytes.old)
        numbers.old result (lent_after text.new types.new boundaries.new char_pos.new byte_pos.new cell_starts.new cell_lengths.new tag_bytes.new) numbers.new }
{
    exports::ighdelmur_read(
        form,
        line,
        text,
        types,
        boundaries,
        char_pos,
        byte_pos,
        cell_starts,
        cell_lengths,
        tag_bytes,
        numbers,
    )
}

// Writes a sheet in a form (1 tokenized, 2 partial) at the front of the output: the line's length. 16 at 0 is the first refusal; then the writer's.
#[unsafe(no_mangle)]
pub extern "C" fn ighdelmur_write(
    form: u32,
    n: usize,
    b: usize,
    columns: usize,
    cells: usize,
    g: usize,
    text: &[u8],
    types: &[u8],
    boundaries: &[u8],
    char_pos: &[u16],
    byte_pos: &[u16],
    cell_starts: &[u16],
    cell_lengths: &[u16],
    tag_bytes: &[u8],
    out: &mut [u8],
) -> u64
    ensures { HostWrites form (record_in n b columns cells g)
        (lent_before text.now types.now boundaries.now char_pos.now byte_pos.now cell_starts.now cell_lengths.now tag_bytes.now) out.old result out.new }
{
    exports::ighdelmur_write(
        form,
        n,
        b,
        columns,
        cells,
        g,
        text,
        types,
        boundaries,
        char_pos,
        byte_pos,
        cell_starts,
        cell_lengths,
        tag_bytes,
        out,
    )
}

// Writes the partial line of a sheet with the labels of the characters from `start` up to `end` withheld at the front of the output: the line's
// length. 13 at 0 is the first refusal, then 14 at the start, then 12 at the length; a start from 2^32 - 1 on is told as 2^32 - 1.
#[unsafe(no_mangle)]
pub extern "C" fn ighdelmur_withhold(
    n: usize,
    b: usize,
    columns: usize,
    cells: usize,
    g: usize,
    text: &[u8],
    types: &[u8],
    boundaries: &[u8],
    char_pos: &[u16],
    byte_pos: &[u16],
    cell_starts: &[u16],
    cell_lengths: &[u16],
    tag_bytes: &[u8],
    start: usize,
    end: usize,
    out: &mut [u8],
) -> u64
    ensures { HostWithholds (record_in n b columns cells g)
        (lent_before text.now types.now boundaries.now char_pos.now byte_pos.now cell_starts.now cell_lengths.now tag_bytes.now) start end out.old result
        out.new }
{
    exports::ighdelmur_withhold(
        n,
        b,
        columns,
        cells,
        g,
        text,
        types,
        boundaries,
        char_pos,
        byte_pos,
        cell_starts,
        cell_lengths,
        tag_bytes,
        start,
        end,
        out,
    )
}

// Writes the note key of a sheet at the front of the output: the key's length. 13 at 0 is the first refusal, then 12 at the length.
#[unsafe(no_mangle)]
pub extern "C" fn ighdelmur_key(
    n: usize,
    b: usize,
    columns: usize,
    cells: usize,
    g: usize,
    text: &[u8],
    types: &[u8],
    boundaries: &[u8],
    char_pos: &[u16],
    byte_pos: &[u16],
    cell_starts: &[u16],
    cell_lengths: &[u16],
    tag_bytes: &[u8],
    out: &mut [u8],
) -> u64
    ensures { HostKeys (record_in n b columns cells g)
        (lent_before text.now types.now boundaries.now char_pos.now byte_pos.now cell_starts.now cell_lengths.now tag_bytes.now) out.old result out.new }
{
    exports::ighdelmur_key(
        n,
        b,
        columns,
        cells,
        g,
        text,
        types,
        boundaries,
        char_pos,
        byte_pos,
        cell_starts,
        cell_lengths,
        tag_bytes,
        out,
    )
}

// The step of the token cursor at `p`: 1 and the token's start and end at the front of the span, or 0 and where the cursor stands. 13 is the first
// refusal, then 14 for a span of fewer numbers than two, both at 0.
#[unsafe(no_mangle)]
pub extern "C" fn ighdelmur_next_token(
    n: usize,
    b: usize,
    columns: usize,
    cells: usize,
    g: usize,
    text: &[u8],
    types: &[u8],
    boundaries: &[u8],
    char_pos: &[u16],
    byte_pos: &[u16],
    cell_starts: &[u16],
    cell_lengths: &[u16],
    tag_bytes: &[u8],
    p: usize,
    span: &mut [u64],
) -> u64
    ensures { HostSteps (record_in n b columns cells g)
        (lent_before text.now types.now boundaries.now char_pos.now byte_pos.now cell_starts.now cell_lengths.now tag_bytes.now) p span.old result span.new }
{
    exports::ighdelmur_next_token(
        n,
        b,
        columns,
        cells,
        g,
        text,
        types,
        boundaries,
        char_pos,
        byte_pos,
        cell_starts,
        cell_lengths,
        tag_bytes,
        p,
        span,
    )
}
