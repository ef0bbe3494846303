// The sheet: a sentence in eight lent buffers, beside a record by value.
#![tactic(auto)]

ghost use Rattle.std.specs.Prelude.{◌≡◌, ◌&&◌};
ghost use Rattle.sheet.specs.Layout.{room_for};
ghost use Rattle.sheet.specs.Check.{in_limits, is_laid, Room};
ghost use Rattle.sheet.specs.Views.{held, is_valid};

// How much of the buffers a sentence takes: characters, text bytes, tag columns, cells (characters times columns), tag bytes.
#[derive(Clone, Copy)]
pub struct Record {
    pub n: usize,
    pub b: usize,
    pub columns: usize,
    pub cells: usize,
    pub g: usize,
}

// How much the one-blank sentence takes.
pub const ONE_BLANK: Record = Record {
    n: 1,
    b: 1,
    columns: 0,
    cells: 0,
    g: 0,
};

// A slice of a buffer: where it starts, and where it ends.
#[derive(Clone, Copy)]
pub struct Span {
    pub start: usize,
    pub end: usize,
}

// A record beside the eight buffers that are to hold its sentence.
#[derive(Clone, Copy)]
pub struct Sheet<'a> {
    pub record: Record,
    pub text: &'a [u8],
    pub types: &'a [u8],
    pub boundaries: &'a [u8],
    pub char_pos: &'a [u16],
    pub byte_pos: &'a [u16],
    pub cell_starts: &'a [u16],
    pub cell_lengths: &'a [u16],
    pub tag_bytes: &'a [u8],
}

// Eight buffers to be filled with a sentence.
#[derive(Drop)]
pub struct Buffers<'a> {
    pub text: &'a mut [u8],
    pub types: &'a mut [u8],
    pub boundaries: &'a mut [u8],
    pub char_pos: &'a mut [u16],
    pub byte_pos: &'a mut [u16],
    pub cell_starts: &'a mut [u16],
    pub cell_lengths: &'a mut [u16],
    pub tag_bytes: &'a mut [u8],
}

impl Record {
    // The limits on what a record counts.
    fn in_limits(self) -> bool
        ensures { result ≡ in_limits self }
    {
        if !((1 <= self.n)
            & (self.n <= self.b)
            & (self.b <= 4096)
            & (self.columns <= 4096)
            & (self.g <= 65535))
        {
            return false;
        }
        self.cells == self.n * self.columns
    }
}

impl Sheet<'_> {
    // The limits, and room for what the record counts.
    fn fits(&self) -> bool
        ensures { result ≡ (in_limits self.now.record && room_for self.now.record (held self.now)) }
    {
        let r = self.record;
        r.in_limits()
            & ((r.b <= self.text.len())
                & (r.n <= self.types.len())
                & (r.n <= self.boundaries.len() + 1)
                & (r.n < self.char_pos.len())
                & (r.b < self.byte_pos.len())
                & (r.cells <= self.cell_starts.len())
                & (r.cells <= self.cell_lengths.len())
                & (r.g <= self.tag_bytes.len()))
    }

    // What the record counts of the buffers, one by one.
    fn is_laid(&self) -> bool
        requires { Room self.now.record (held self.now) }
        ensures { result ≡ is_laid self.now.record (held self.now) }
    {
        let r = self.record;
        if !sheet_check::is_text(
            &self.text[..r.b],
            &self.types[..r.n],
            &self.char_pos[..r.n + 1],
            &self.byte_pos[..r.b + 1],
        ) {
            return false;
        }
        if !sheet_check::are_marks(&self.boundaries[..r.n - 1]) {
            return false;
        }
        sheet_check::are_cells(
            r.columns,
            &self.tag_bytes[..r.g],
            &self.cell_starts[..r.cells],
            &self.cell_lengths[..r.cells],
        )
    }

    // Whether the record and the buffers are a sheet: a sentence as laid out, within the limits.
    pub fn check(&self) -> bool
        ensures { result ≡ is_valid self.now }
    {
        self.fits() && self.is_laid()
    }
}
