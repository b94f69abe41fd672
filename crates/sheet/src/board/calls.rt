// What a board does: entries, strikings, and reading the sheet.
ghost use Rattle.std.specs.Prelude.{◌≡◌, ◌≤◌, length};
ghost use Rattle.std.specs.List.{slice_get};
ghost use Rattle.std.specs.Option.{option_map};
ghost use Rattle.sheet.specs.Boards.{sheet_of};
ghost use Rattle.sheet.specs.Calls.{after, edit, judged};
ghost use Rattle.sheet.specs.Reads.{Read};
ghost use Rattle.sheet.specs.Sheets.{empty, use_of};
ghost use Rattle.sheet.specs.Laws.{SmallestTold};
ghost use Rattle.sheet.specs.Sound.{Sound};
ghost use Rattle.sheet.specs.Words.{word_of};

use crate::board::Board;
use crate::edit::Edit;
use crate::pair::Pair;
use crate::table::{PAIRS, ROOMS, Table};
use crate::word::Entry;
use fault::Fault;

impl Board {
    // A fresh board, with an empty sheet. A constructor, as of the table: its contract says what it makes, and a default would have to be written by hand too, which is no plainer.
    pub fn new() -> Board
        ensures { sheet_of result ≡ empty }
    {
        Board {
            table: Table::new(),
        }
    }

    // Each call says what it leaves and what it answers in two clauses of its own: they speak of two states, so a type or an invariant to carry them would be no plainer.

    // Adds the room or pair that the word says at the end.
    pub fn enter(&mut self, word: u32) -> Result<(), Fault>
        ensures sheet { sheet_of self.new ≡ after (sheet_of self.old) (edit (Edit.Enter word)) }
        ensures reply { result ≡ judged (sheet_of self.old) (Edit.Enter word) }
    {
        match self.table.read_entry(word)? {
            Entry::Room(purpose) => self.enter_room(word, purpose),
            Entry::Touch(pair) => self.enter_pair(word, pair),
        }
    }

    // `word` is what `purpose` was read from.
    fn enter_room(&mut self, word: u32, purpose: u8) -> Result<(), Fault>
        requires { Read self.old.table.rooms word (Entry.Room purpose) }
        ensures sheet { sheet_of self.new ≡ after (sheet_of self.old) (edit (Edit.Enter word)) }
        ensures reply { result ≡ judged (sheet_of self.old) (Edit.Enter word) }
    {
        if self.table.rooms == ROOMS {
            return Err(Fault::Full);
        }
        self.table.add_room(purpose);
        Ok(())
    }

    // `word` is what `pair` was read from.
    fn enter_pair(&mut self, word: u32, pair: Pair) -> Result<(), Fault>
        requires { Read self.old.table.rooms word (Entry.Touch pair) }
        ensures sheet { sheet_of self.new ≡ after (sheet_of self.old) (edit (Edit.Enter word)) }
        ensures reply { result ≡ judged (sheet_of self.old) (Edit.Enter word) }
    {
        if self.table.marks == PAIRS {
            return Err(Fault::Full);
        }
        if pair.first == pair.second {
            return Err(Fault::SameRoom);
        }
        if pair.is_joined_among(self.pair_list()) {
            return Err(Fault::AlreadyJoined);
        }
        self.table.add_pair(pair);
        Ok(())
    }

    // Removes the held pair that the word says; the later pairs move up and keep their order.
    pub fn strike(&mut self, word: u32) -> Result<(), Fault>
        ensures sheet { sheet_of self.new ≡ after (sheet_of self.old) (edit (Edit.Strike word)) }
        ensures reply { result ≡ judged (sheet_of self.old) (Edit.Strike word) }
    {
        let pair = self.table.read_pair(word)?;
        let at = pair.place_among(self.pair_list()).ok_or(Fault::NotHeld)?;
        self.table.remove(at);
        Ok(())
    }

    // One call, whichever it is. Where several refusals apply, the one with the smallest number is told.
    #[tactic(auto, using(crate::proofs::Laws::smallest_told, crate::proofs::Keeping::sound))]
    pub fn apply(&mut self, call: Edit) -> Result<(), Fault>
        ensures sheet { sheet_of self.new ≡ after (sheet_of self.old) (edit call) }
        ensures reply { result ≡ judged (sheet_of self.old) call }
        ensures smallest { SmallestTold (sheet_of self.old) call result }
        ensures sound { Sound (sheet_of self.new) }
    {
        match call {
            Edit::Enter(word) => self.enter(word),
            Edit::Strike(word) => self.strike(word),
        }
    }

    // Rooms and pairs have readers of their own: a generic one would have to be told which of the two lists it reads, and is no plainer.

    // How many rooms are held.
    pub fn rooms(&self) -> usize
        ensures count { result ≡ length (sheet_of self.now).uses }
        ensures few { result ≤ 200 }
    {
        self.table.rooms
    }

    // The use of a room by its number, from 1.
    pub fn use_of(&self, room: usize) -> Option<u8>
        ensures { result ≡ use_of (sheet_of self.now) room }
    {
        self.uses().get(room.checked_sub(1)?).copied()
    }

    // The uses of the held rooms, room 1 first.
    pub fn uses(&self) -> &[u8]
        ensures { result.now ≡ (sheet_of self.now).uses }
    {
        &self.table.uses[0..self.table.rooms]
    }

    // How many pairs are held.
    pub fn pairs(&self) -> usize
        ensures count { result ≡ length (sheet_of self.now).pairs }
        ensures short { result ≤ 600 }
    {
        self.table.marks
    }

    // The held pairs, in their order.
    pub fn pair_list(&self) -> &[Pair]
        ensures { result.now ≡ (sheet_of self.now).pairs }
    {
        &self.table.pairs[0..self.table.marks]
    }

    // The pair at a place, counted from 0.
    pub fn pair(&self, index: usize) -> Option<Pair>
        ensures { result ≡ slice_get (sheet_of self.now).pairs index }
    {
        self.pair_list().get(index).copied()
    }

    // The word of the pair at a place, counted from 0.
    pub fn pair_word(&self, index: usize) -> Option<u32>
        ensures { result ≡ option_map word_of (slice_get (sheet_of self.now).pairs index) }
    {
        self.pair(index).map(Pair::word)
    }
}
