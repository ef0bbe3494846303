// What the program `respell` does between its calls of the system, on slices.
#![tactic(auto)]

pub mod unchecked;

// What was done with a piece of input: the bytes used, and the bytes written.
#[derive(Clone, Copy)]
pub struct Turn {
    pub used: usize,
    pub wrote: usize,
}

// What stands between two calls of the system. The bytes from `from` up to `to` of the input buffer wait for their answer, those from `put` up to
// `wrote` of the output buffer wait to be written; the input has ended; nothing can be answered before more is read; a call has failed.
// The flags are those of `State` in specs/Run.antt, which may not change, and each may be set without the others.
#[derive(Clone, Copy)]
pub struct Stand {
    pub from: usize,
    pub to: usize,
    pub put: usize,
    pub wrote: usize,
    pub last: bool,
    pub waits: bool,
    pub failed: bool,
}

// What a call of the system came to: it moved so many bytes, it is to be made again, or it failed.
#[derive(Clone, Copy)]
pub enum Call {
    Moved(usize),
    Again,
    Failed,
}
