// The one fault type of the engine: why a call is refused, and what the refusal names.
#![tactic(auto)]

ghost use Rattle.std.specs.Prelude.{◌≡◌, Some};
ghost use Rattle.fault.specs.Told.{fault_text, told};

use std::error::Error;
use std::fmt;

// A side of a room, or an edge of the plan.
#[derive(Clone, Copy, PartialEq, Eq, Debug)]
pub enum Side {
    North,
    East,
    South,
    West,
}

// A corner of a room, between two of its sides.
#[derive(Clone, Copy, PartialEq, Eq, Debug)]
pub enum Corner {
    NorthWest,
    NorthEast,
    SouthEast,
    SouthWest,
}

// Across walls stand west to east, down walls north to south.
#[derive(Clone, Copy, PartialEq, Eq, Debug)]
pub enum Axis {
    Across,
    Down,
}

// A refusal, with the room and the spot that it names.
#[derive(Clone, Copy, PartialEq, Eq, Debug)]
pub enum Fault {
    // the call does not take this kind of word
    WrongKind,
    // a field, room, side or figure is out of range
    OutOfRange,
    // a room is entered with 200 held, or a pair with 600 held
    Full,
    // a pair entered names one room twice
    SameRoom,
    // a pair entered joins two rooms that have a mark
    AlreadyJoined,
    // the word to strike is not held
    NotHeld,
    // the board has no rooms
    NoRooms,
    // the door is not above zero, or its extent passes the greatest step
    BadDoor,
    // the use of this room is not in the book
    UnknownUse { room: u8 },
    // a space or list is too short
    TooShort,
    // this side is not in order; room 0 stands for the edge on that side
    NotInOrder { room: u8, side: Side },
    // this corner is not closed
    NotClosed { room: u8, corner: Corner },
    // the west (across) or north (down) wall of this room is looped
    Looped { room: u8, axis: Axis },
    // the least width passes the site's
    TooWide,
    // the least depth passes the site's
    TooDeep,
}

impl Fault {
    // The refusal's number, which replies print. A table by hand: variants with fields have no discriminant to read, so no other form is plainer.
    pub fn number(self) -> u8
        ensures { result ≡ (told self).number }
    {
        match self {
            Fault::WrongKind => 1,
            Fault::OutOfRange => 2,
            Fault::Full => 3,
            Fault::SameRoom => 4,
            Fault::AlreadyJoined => 5,
            Fault::NotHeld => 6,
            Fault::NoRooms => 7,
            Fault::BadDoor => 8,
            Fault::UnknownUse { .. } => 9,
            Fault::TooShort => 10,
            Fault::NotInOrder { .. } => 11,
            Fault::NotClosed { .. } => 12,
            Fault::Looped { .. } => 13,
            Fault::TooWide => 14,
            Fault::TooDeep => 15,
        }
    }

    // The room that it names, or 0 for none, as replies print it: an `Option` would be turned back into 0, and is no plainer.
    pub fn room(self) -> u8
        ensures { result ≡ (told self).room }
    {
        match self {
            Fault::UnknownUse { room }
            | Fault::NotInOrder { room, .. }
            | Fault::NotClosed { room, .. }
            | Fault::Looped { room, .. } => room,
            _ => 0,
        }
    }

    // The number of the side, corner or axis that it names, or 0 for none, in the same way.
    pub fn spot(self) -> u8
        ensures { result ≡ (told self).spot }
    {
        match self {
            Fault::NotInOrder { side, .. } => side as u8,
            Fault::NotClosed { corner, .. } => corner as u8,
            Fault::Looped { axis, .. } => axis as u8,
            _ => 0,
        }
    }
}

// The line that tells it.
impl fmt::Display for Fault {
    ghost output = { λ f. Some (fault_text f) };

    fn fmt<W: fmt::Write>(&self, f: &mut fmt::Formatter<W>) -> fmt::Result {
        write!(f, "fault {} {} {}", self.number(), self.room(), self.spot())
    }
}

impl Error for Fault {}

#[cfg(test)]
mod tests;
