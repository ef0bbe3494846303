// The conversion of a line from one form to another.
#![tactic(auto)]

ghost use Rattle.std.specs.Prelude.{◌≡◌, length};
ghost use Rattle.sheet.specs.Answers.{Number};
ghost use Rattle.convert_buffers.specs.Between.{Converts};
ghost use Rattle.convert.specs.Convert.{out_of_range, conversion};

use sentence::{Form, Refusal};

// Whether an output is too long, or a place lies past its end.
fn out_of_range(size: usize, at: usize) -> bool
    ensures { result ≡ out_of_range size at }
{
    (1048576 < size) | (size < at)
}

// Reads a line in the form `reader` (0 raw, 1 tokenized, 2 partial) and writes it in the form `writer` (1 or 2) into the output, behind the bytes
// before `at`.
pub fn convert(
    reader: u32,
    writer: u32,
    line: &[u8],
    out: &mut [u8],
    at: usize,
) -> Result<usize, Refusal>
    ensures { Converts (λ (c : Number). c) (conversion reader writer line.now (length out.old) at) at out.old result
        out.new }
{
    let from = Form::try_from(reader)?;
    let to = Form::to_write(writer)?;
    if out_of_range(out.len(), at) {
        return Err(Refusal::outside(0));
    }
    let n = convert_buffers::unchecked::between(from, to, line, &mut out[at..])?;
    Ok(at + n)
}
