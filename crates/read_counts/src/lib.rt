// What is counted of a line while it is read.
#![tactic(auto)]

pub mod unchecked;

ghost use Rattle.std.specs.Prelude.{◌≡◌};
ghost use Rattle.read_counts.specs.Counts.{nothing};

// The characters, text bytes, columns and tag bytes so far; of the last character the tags that were closed; and whether a tag is open,
// with its bytes so far. Tags and bytes of the open tag are narrow so that the record has no hole of many bytes, which would be copied with it.
#[derive(Clone, Copy)]
pub struct Counts {
    pub n: usize,
    pub b: usize,
    pub columns: usize,
    pub g: usize,
    pub tags: u32,
    // No `Option` of the two: `opening` and `grows`, by which the counts are defined, speak of each.
    pub long: u16,
    pub tag: bool,
}

impl Counts {
    #[tactic(auto, unfolding(crate::specs::Counts::nothing))]
    pub fn new() -> Self
        ensures { result ≡ nothing }
    {
        Counts {
            n: 0,
            b: 0,
            columns: 0,
            g: 0,
            tags: 0,
            long: 0,
            tag: false,
        }
    }
}
