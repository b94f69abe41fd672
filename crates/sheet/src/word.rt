// Reading a word: its kind, then the ranges of its fields.
ghost use Rattle.std.specs.Prelude.{◌≡◌, ◌%◌, MatchResult};
ghost use Rattle.sheet.specs.Sheets.{held};
ghost use Rattle.sheet.specs.Reads.{Named, PairRead, PairUnread, Read, Unread};
ghost use Rattle.sheet.specs.Words.{pair_fits, room_fits};

use crate::pair::{Direction, Pair};
use crate::table::Table;
use fault::Fault;

// What a word adds to a sheet.
#[derive(Clone, Copy, PartialEq, Eq, Debug)]
pub enum Entry {
    Room(u8),
    Touch(Pair),
}

// What kind of word it is.
#[derive(Clone, Copy, PartialEq, Eq, Debug)]
pub enum Kind {
    RoomWord,
    PairWord(Direction),
}

impl TryFrom<u32> for Kind {
    type Error = Fault;

    ghost try_from_gives = { Named };

    fn try_from(number: u32) -> Result<Kind, Fault> {
        match number {
            1 => Ok(Kind::RoomWord),
            2 => Ok(Kind::PairWord(Direction::Beside)),
            3 => Ok(Kind::PairWord(Direction::Above)),
            _ => Err(Fault::WrongKind),
        }
    }
}

fn room_in_range(word: u32) -> bool
    ensures { result ≡ room_fits word }
{
    (1..=255).contains(&(word % (1 << 28)))
}

// What a word says, judged by the rooms that the table has.
impl Table {
    fn is_held(&self, room: u8) -> bool
        ensures { result ≡ held self.now.rooms room }
    {
        (1..=self.rooms).contains(&usize::from(room))
    }

    fn pair_in_range(&self, word: u32) -> bool
        ensures { result ≡ pair_fits self.now.rooms word }
    {
        let [_, _, first, second] = word.to_be_bytes();
        word % (1 << 28) < 1 << 16 && self.is_held(first) && self.is_held(second)
    }

    // The pair that a word says.
    pub fn read_pair(&self, word: u32) -> Result<Pair, Fault>
        ensures { MatchResult result (PairRead self.now.rooms word) (PairUnread self.now.rooms word) }
    {
        let [_, _, first, second] = word.to_be_bytes();
        match Kind::try_from(word >> 28)? {
            Kind::PairWord(direction) if self.pair_in_range(word) => Ok(Pair {
                direction,
                first,
                second,
            }),
            Kind::PairWord(_) => Err(Fault::OutOfRange),
            Kind::RoomWord => Err(Fault::WrongKind),
        }
    }

    // The room or pair that a word says.
    pub fn read_entry(&self, word: u32) -> Result<Entry, Fault>
        ensures { MatchResult result (Read self.now.rooms word) (Unread self.now.rooms word) }
    {
        let [_, _, _, purpose] = word.to_be_bytes();
        match Kind::try_from(word >> 28)? {
            Kind::RoomWord if room_in_range(word) => Ok(Entry::Room(purpose)),
            Kind::RoomWord => Err(Fault::OutOfRange),
            Kind::PairWord(_) => self.read_pair(word).map(Entry::Touch),
        }
    }
}
