// Two rooms that touch, and which of them lies west or north.
ghost use Rattle.std.specs.Prelude.{◌≡◌};
ghost use Rattle.std.specs.List.{list_any, position};
ghost use Rattle.sheet.specs.Sheets.{same_pair, same_rooms};
ghost use Rattle.sheet.specs.Laws.{SaysPair};
ghost use Rattle.sheet.specs.Words.{kind_of, word_of};

// Which room lies where.
#[derive(Clone, Copy, PartialEq, Eq, Debug)]
pub enum Direction {
    // the first room lies west of the second
    Beside,
    // the first room lies north of the second
    Above,
}

impl Direction {
    // The kind of the words that say such a pair. No discriminant, since a cast of a direction gives 0 and 1.
    fn kind(self) -> u8
        ensures { result ≡ kind_of self }
    {
        match self {
            Direction::Beside => 2,
            Direction::Above => 3,
        }
    }
}

#[derive(Clone, Copy, PartialEq, Eq, Debug)]
pub struct Pair {
    pub direction: Direction,
    pub first: u8,
    pub second: u8,
}

impl Pair {
    // Whether both join the same two rooms, in either order and direction.
    pub fn joins_same_rooms(self, other: Pair) -> bool
        ensures { result ≡ same_rooms self other }
    {
        (self.first == other.first && self.second == other.second)
            || (self.first == other.second && self.second == other.first)
    }

    // Whether both are the same mark of the same rooms: what `==` answers, in the words of the sheet.
    pub fn is_same(self, other: Pair) -> bool
        ensures { result ≡ same_pair self other }
    {
        self == other
    }

    // Whether one of these pairs joins the same two rooms.
    pub(crate) fn is_joined_among(self, held: &[Pair]) -> bool
        ensures { result ≡ list_any (same_rooms self) held.now }
    {
        held.iter().any(|other| self.joins_same_rooms(*other))
    }

    // Where it stands among these pairs.
    pub(crate) fn place_among(self, held: &[Pair]) -> Option<usize>
        ensures { result ≡ position (same_pair self) held.now }
    {
        held.iter().position(|other| self.is_same(*other))
    }

    // The word that enters this pair, and strikes it: it says this pair and no other. A method: `u32::from(pair)` would not say that the number is a word, and is no plainer.
    pub fn word(self) -> u32
        ensures value { result ≡ word_of self }
        ensures says { SaysPair result self }
    {
        u32::from_be_bytes([self.direction.kind() << 4, 0, self.first, self.second])
    }
}
