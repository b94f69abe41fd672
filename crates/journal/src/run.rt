// A list of calls, run from a fresh board.
ghost use Rattle.std.specs.Prelude.{◌≡◌, map, IfOk};
ghost use Rattle.sheet.specs.Boards.{sheet_of};
ghost use Rattle.sheet.specs.Calls.{edit, sheet_after};
ghost use Rattle.sheet.specs.Sound.{Sound};
ghost use Rattle.journal.specs.Runs.{JudgedInOrder};

use fault::Fault;
use sheet::board::Board;
use sheet::edit::Edit;
use std::alloc::{AllocError, Global};

// The board that a list of calls leaves, and the reply to each call.
#[derive(Drop)]
pub struct Outcome {
    pub board: Board,
    pub replies: Vec<Result<(), Fault>>,
}

// Runs calls from a fresh board, one after another.
pub fn run(heap: Global, calls: &[Edit]) -> Result<Outcome, AllocError>
    ensures sheet { IfOk result (λ o. sheet_of o.board ≡ sheet_after (map edit calls.now)) }
    ensures replies { IfOk result (λ o. JudgedInOrder calls.now o.replies.items) }
    ensures sound { IfOk result (λ o. Sound (sheet_of o.board)) }
{
    let mut board = Board::new();
    let mut replies = Vec::new(heap);
    for call in calls {
        replies.push(board.apply(*call))?;
    }
    Ok(Outcome { board, replies })
}
