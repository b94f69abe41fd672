// The arrays of a board: the uses of its rooms and its pairs, each with how many there are.
// No other crate sees the table. What its methods require is what the board's invariant says.
// Plain arrays with counts beside, and `add_room` beside `add_pair`: a rule of the project (docs/DECISIONS.md, the board's memory) asks for repeated arrays of the greatest sizes in a table without an invariant. So each method says in its contract what it does to the counts.
ghost use Rattle.std.specs.Prelude.{◌≡◌, ◌+◌, ◌<◌, ◌≤◌, Some};
ghost use Rattle.std.specs.List.{slice_get, remove};
ghost use Rattle.sheet.specs.Sheets.{empty, with_pair, with_room};
ghost use Rattle.sheet.specs.Tables.{sheet_in, with_pairs};

use crate::pair::{Direction, Pair};

// The most rooms that a board holds.
pub const ROOMS: usize = 200;

// The most pairs that a board holds.
pub const PAIRS: usize = 600;

#[derive(Drop)]
pub struct Table {
    pub uses: [u8; ROOMS],
    pub rooms: usize,
    pub pairs: [Pair; PAIRS],
    pub marks: usize,
}

impl Table {
    // Blank arrays, and counts of 0. A constructor, as of the board: a default would have to be written by hand too, which is no plainer.
    pub fn new() -> Table
        ensures sheet { sheet_in result ≡ empty }
        ensures rooms { result.rooms ≡ 0 }
        ensures marks { result.marks ≡ 0 }
    {
        let blank = Pair {
            direction: Direction::Beside,
            first: 0,
            second: 0,
        };
        Table {
            uses: [0; ROOMS],
            rooms: 0,
            pairs: [blank; PAIRS],
            marks: 0,
        }
    }

    pub fn add_room(&mut self, purpose: u8)
        requires { self.old.rooms < 200 }
        ensures sheet { sheet_in self.new ≡ with_room (sheet_in self.old) purpose }
        ensures rooms { self.new.rooms ≡ self.old.rooms + 1 }
        ensures marks { self.new.marks ≡ self.old.marks }
    {
        self.uses[self.rooms] = purpose;
        self.rooms += 1;
    }

    pub fn add_pair(&mut self, pair: Pair)
        requires { self.old.marks < 600 }
        ensures sheet { sheet_in self.new ≡ with_pair (sheet_in self.old) pair }
        ensures rooms { self.new.rooms ≡ self.old.rooms }
        ensures marks { self.new.marks ≡ self.old.marks + 1 }
    {
        self.pairs[self.marks] = pair;
        self.marks += 1;
    }

    // Removes the pair at `at` and hands it out; the later ones move up.
    pub fn remove(&mut self, at: usize) -> Pair
        requires within { at < self.old.marks }
        requires bound { self.old.marks ≤ 600 }
        ensures sheet { sheet_in self.new
            ≡ with_pairs (sheet_in self.old) (remove (sheet_in self.old).pairs at) }
        ensures rooms { self.new.rooms ≡ self.old.rooms }
        ensures marks { self.new.marks + 1 ≡ self.old.marks }
        ensures gone { Some result ≡ slice_get (sheet_in self.old).pairs at }
    {
        let gone = self.pairs[at];
        self.pairs.copy_within(at + 1..self.marks, at);
        self.marks -= 1;
        gone
    }
}
