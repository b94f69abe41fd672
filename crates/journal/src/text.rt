// The lines that a journal prints.
ghost use Rattle.std.specs.Prelude.{◌≡◌, [], ◌∷◌, ◌++◌, IfSome, Some, string_bytes, OnOk};
ghost use Rattle.journal.specs.Texts.{held_text, pair_text, reply_text, summary_text};

use crate::reply::LineError;
use crate::tally::Tally;
use std::alloc::AllocError;
use std::fmt;

// The line that tells a reply.
#[derive(Clone, Copy)]
pub struct ReplyLine(pub Result<(), LineError>);

impl fmt::Display for ReplyLine {
    ghost output = { λ l. Some (reply_text l.0) };

    fn fmt<W: fmt::Write>(&self, f: &mut fmt::Formatter<W>) -> fmt::Result {
        match self.0 {
            Ok(()) => write!(f, "ok"),
            Err(error) => write!(f, "{error}"),
        }
    }
}

// The last line: how many calls were made, and what the sheet holds.
#[derive(Clone, Copy)]
pub struct Summary {
    pub tally: Tally,
    pub rooms: usize,
    pub pairs: usize,
}

impl fmt::Display for Summary {
    ghost output = { λ s. Some (summary_text s) };

    fn fmt<W: fmt::Write>(&self, f: &mut fmt::Formatter<W>) -> fmt::Result {
        write!(
            f,
            "{}; rooms {}, pairs {}",
            self.tally, self.rooms, self.pairs,
        )
    }
}

// A room that is held, by its number, and its use.
#[derive(Clone, Copy)]
pub struct HeldRoom {
    pub room: usize,
    pub purpose: u8,
}

impl fmt::Display for HeldRoom {
    ghost output = { λ h. Some (held_text h.room h.purpose) };

    fn fmt<W: fmt::Write>(&self, f: &mut fmt::Formatter<W>) -> fmt::Result {
        write!(f, "held {} {}", self.room, self.purpose)
    }
}

// A pair that is held, by its word.
#[derive(Clone, Copy)]
pub struct HeldPair {
    pub word: u32,
}

impl fmt::Display for HeldPair {
    ghost output = { λ p. Some (pair_text p.word) };

    #[tactic(auto, using(crate::proofs::Digits::word_padded))]
    fn fmt<W: fmt::Write>(&self, f: &mut fmt::Formatter<W>) -> fmt::Result {
        let word = self.word;
        write!(f, "pair {word:08x}")
    }
}

// Appends what `{}` writes of `line`, and a line end. Where memory fails, nothing is said of `out`. Each call that adds to a text says in its clause what it adds, which is another text each time; a type to carry it would be no plainer.
pub fn push_line<T: fmt::Display>(out: &mut String, line: &T) -> Result<(), AllocError>
    ensures { OnOk result (IfSome (T.Display.output line.now) (λ bs. string_bytes out.new ≡ string_bytes out.old ++ (bs ++ (10 ∷ [])))) }
{
    writeln!(out, "{line}")
}
