// One act counted, of counts that are no larger than a line.
ghost use Rattle.std.specs.Prelude.{◌≡◌, ◌≤◌, ℕ};
ghost use Rattle.read_state.specs.States.{act_of};
ghost use Rattle.read_counts.specs.Counts.{Small, letters, opening, grows, tally_by, counted};

use crate::Counts;
use read_state::Act;
use sheet::Record;

impl Counts {
    // A character of the text.
    #[tactic(auto, unfolding(crate::specs::Counts::letters))]
    fn letter(&mut self, len: usize)
        requires { Small self.old 4096 × (len ≤ 4) }
        ensures { self.new ≡ letters len self.old }
    {
        self.n += 1;
        self.b += len;
        self.tags = 0;
        self.long = 0;
        self.tag = false;
    }

    // A tag begins.
    #[tactic(auto, unfolding(crate::specs::Counts::opening, crate::specs::Counts::opened))]
    fn opens(&mut self)
        requires { Small self.old 4096 }
        ensures { self.new ≡ opening self.old }
    {
        self.tags += u32::from(self.tag);
        self.columns = usize::max(self.columns, self.tags as usize + 1);
        self.long = 0;
        self.tag = true;
    }

    // A character of the open tag.
    #[tactic(auto, unfolding(crate::specs::Counts::grows))]
    fn of_tag(&mut self, len: usize)
        requires { Small self.old 4096 × (len ≤ 4) }
        ensures { self.new ≡ grows self.old.tag len self.old }
    {
        if self.tag {
            self.g += len;
            self.long += len as u16;
        }
    }

    // An act whose character has this many bytes.
    #[tactic(auto, unfolding(crate::specs::Counts::tally_by))]
    pub fn tally(&mut self, act: Act, len: usize)
        requires { Small self.old 4096 × (len ≤ 4) }
        ensures { (c : ℕ) → self.new ≡ tally_by len (act_of c act) self.old }
    {
        match act {
            Act::Skip => {}
            Act::Letter(_) => self.letter(len),
            Act::Opens => self.opens(),
            Act::OfTag => self.of_tag(len),
        }
    }

    // The record of what was counted.
    #[tactic(auto, using(crate::proofs::Bounds::cells_few), unfolding(crate::specs::Counts::counted))]
    pub fn total(self) -> Record
        requires { Small self 4096 }
        ensures { result ≡ counted self }
    {
        Record {
            n: self.n,
            b: self.b,
            columns: self.columns,
            cells: self.n * self.columns,
            g: self.g,
        }
    }
}
