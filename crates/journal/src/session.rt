// Working through a journal's text, any number of bytes at a time.
ghost use Rattle.std.specs.Prelude.{◌≡◌, [], ◌∷◌, ◌++◌, IfOk, string_bytes, OnOk};
ghost use Rattle.sheet.specs.Boards.{sheet_of};
ghost use Rattle.sheet.specs.Calls.{run};
ghost use Rattle.journal.specs.Cuts.{CutOf, cut};
ghost use Rattle.journal.specs.Lines.{said};
ghost use Rattle.journal.specs.Sessions.{After, Fed, Finished};
ghost use Rattle.journal.specs.Transcripts.{answered, called, pair_lines, room_lines, transcript};

use crate::line::read_line;
use crate::reply::LineError;
use crate::tally::Tally;
use crate::text::{HeldPair, HeldRoom, ReplyLine, Summary, push_line};
use arrayvec::ArrayVec;
use sheet::board::Board;
use std::alloc::{AllocError, Global};

// One byte more than the longest line that can be read.
const KEPT: usize = 16;

// A board, what was counted so far, and the line that is being read. Only its first bytes are kept, as many as tell whether it can be read, so a line of any length takes the same memory.
#[derive(Drop)]
pub struct Session {
    board: Board,
    tally: Tally,
    line: ArrayVec<u8, KEPT>,
}

// Makes the call that a line says, if it says one.
fn answer(board: &mut Board, line: &[u8]) -> Result<(), LineError>
    ensures reply { result ≡ answered (sheet_of board.old) (said line.now) }
    ensures sheet { sheet_of board.new ≡ run (sheet_of board.old) (called (said line.now)) }
{
    let call = read_line(line).ok_or(LineError::Unreadable)?;
    Ok(board.apply(call)?)
}

// Rooms and pairs have a function each: one for both would take an iterator, and its contract would have to say what that yields, which is no plainer than two short loops.

// A line for each held room.
#[tactic(auto, using(crate::proofs::Printing::rooms_more))]
fn push_rooms(board: &Board, out: &mut String) -> Result<(), AllocError>
    ensures { OnOk result (string_bytes out.new ≡ string_bytes out.old ++ room_lines (sheet_of board.now)) }
{
    for (index, purpose) in board.uses().iter().enumerate() {
        let room = HeldRoom {
            room: index + 1,
            purpose: *purpose,
        };
        push_line(out, &room)?;
    }
    Ok(())
}

// A line for each held pair.
#[tactic(auto, using(crate::proofs::Printing::pairs_more))]
fn push_pairs(board: &Board, out: &mut String) -> Result<(), AllocError>
    ensures { OnOk result (string_bytes out.new ≡ string_bytes out.old ++ pair_lines (sheet_of board.now)) }
{
    for pair in board.pair_list() {
        let held = HeldPair { word: pair.word() };
        push_line(out, &held)?;
    }
    Ok(())
}

impl Session {
    // A session with a fresh board, to which nothing was fed. A constructor, as of the board: its contract says what it makes, and a default that one derives is no plainer.
    pub fn new() -> Session
        ensures { After result [] }
    {
        Session {
            board: Board::new(),
            tally: Tally::default(),
            line: ArrayVec::new(),
        }
    }

    // Takes more bytes of the text, and adds the reply to each line that they end to `out`.
    pub fn feed(&mut self, bytes: &[u8], out: &mut String) -> Result<(), AllocError>
        ensures { OnOk result (Fed self.old self.new bytes.now (string_bytes out.old) (string_bytes out.new)) }
    {
        for byte in bytes {
            if *byte == b'\n' {
                self.end_line(out)?;
            } else {
                // a full line takes no more
                let _ = self.line.try_push(*byte);
            }
        }
        Ok(())
    }

    // The line ends here.
    fn end_line(&mut self, out: &mut String) -> Result<(), AllocError>
        ensures { OnOk result (Fed self.old self.new (10 ∷ []) (string_bytes out.old) (string_bytes out.new)) }
    {
        let reply = answer(&mut self.board, self.line.as_slice());
        self.tally.note(reply);
        self.line.clear();
        push_line(out, &ReplyLine(reply))
    }

    // The text ends here: a last line without its line feed counts, and the sheet and the summary follow.
    pub fn finish(mut self, out: &mut String) -> Result<(), AllocError>
        ensures { OnOk result (Finished self (string_bytes out.old) (string_bytes out.new)) }
    {
        if !self.line.is_empty() {
            self.end_line(out)?;
        }
        push_rooms(&self.board, out)?;
        push_pairs(&self.board, out)?;
        let summary = Summary {
            tally: self.tally,
            rooms: self.board.rooms(),
            pairs: self.board.pairs(),
        };
        push_line(out, &summary)
    }
}

// The answer to a whole journal.
pub fn replay(heap: Global, text: &[u8]) -> Result<String, AllocError>
    ensures transcript { IfOk result (λ s. string_bytes s ≡ transcript text.now) }
    ensures lines { CutOf text.now (cut text.now) }
{
    let mut session = Session::new();
    let mut out = String::new(heap);
    session.feed(text, &mut out)?;
    session.finish(&mut out)?;
    Ok(out)
}
