// The reply to a line: it was carried out, or why it was not.
ghost use Rattle.std.specs.Prelude.{◌≡◌, Some};
ghost use Rattle.journal.specs.Texts.{error_text};
ghost use Rattle.journal.specs.declared.reply.LineError.TheVariants.{Refused};

use fault::Fault;
use std::error::Error;
use std::fmt;

// Why a line was not carried out.
#[derive(Clone, Copy, PartialEq, Eq, Debug)]
pub enum LineError {
    // the line says no call
    Unreadable,
    // the call that it says was refused
    Refused(Fault),
}

impl fmt::Display for LineError {
    ghost output = { λ e. Some (error_text e) };

    fn fmt<W: fmt::Write>(&self, f: &mut fmt::Formatter<W>) -> fmt::Result {
        match self {
            LineError::Unreadable => write!(f, "unreadable"),
            LineError::Refused(fault) => write!(f, "{fault}"),
        }
    }
}

impl Error for LineError {}

impl From<Fault> for LineError {
    ghost from_gives = { λ f e. e ≡ Refused f };

    fn from(fault: Fault) -> LineError {
        LineError::Refused(fault)
    }
}
