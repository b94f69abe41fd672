// How many lines had each reply.
ghost use Rattle.std.specs.Prelude.{List, [], ◌∷◌, ◌++◌, Some};
ghost use Rattle.journal.specs.Replies.{Reply};
ghost use Rattle.journal.specs.Tallies.{Tallied};
ghost use Rattle.journal.specs.Texts.{tally_text};

use crate::reply::LineError;
use std::fmt;

// A call is a line that was accepted or refused.
#[derive(Clone, Copy, Default)]
pub struct Tally {
    pub calls: u64,
    pub accepted: u64,
    pub refused: u64,
    pub unreadable: u64,
}

impl fmt::Display for Tally {
    ghost output = { λ t. Some (tally_text t) };

    fn fmt<W: fmt::Write>(&self, f: &mut fmt::Formatter<W>) -> fmt::Result {
        write!(
            f,
            "calls {}, accepted {}, refused {}, unreadable {}",
            self.calls, self.accepted, self.refused, self.unreadable,
        )
    }
}

impl Tally {
    // One reply more. A count that has come to the greatest number stays there.
    pub fn note(&mut self, reply: Result<(), LineError>)
        ensures { (rs : List Reply) → Tallied self.old rs → Tallied self.new (rs ++ reply ∷ []) }
    {
        match reply {
            Ok(()) => {
                self.calls = self.calls.saturating_add(1);
                self.accepted = self.accepted.saturating_add(1);
            }
            Err(LineError::Refused(_)) => {
                self.calls = self.calls.saturating_add(1);
                self.refused = self.refused.saturating_add(1);
            }
            Err(LineError::Unreadable) => {
                self.unreadable = self.unreadable.saturating_add(1);
            }
        }
    }
}
