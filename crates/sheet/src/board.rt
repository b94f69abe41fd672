// The board: a table that some list of calls made. What it does is in `calls`, since those contracts cite what names the board.
ghost use Rattle.std.specs.Prelude.{◌≡◌, ◌≤◌, List, length};
ghost use Rattle.sheet.specs.Calls.{Call, sheet_after};
ghost use Rattle.sheet.specs.Sound.{Sound};
ghost use Rattle.sheet.specs.Tables.{sheet_in};

use crate::table::Table;

mod calls;

#[derive(Drop)]
pub struct Board {
    table: Table,
    ghost few: { table.rooms ≤ 200 },
    ghost short: { table.marks ≤ 600 },
    // the arrays are as long as the counts say
    ghost rooms: { length (sheet_in table).uses ≡ table.rooms },
    ghost marks: { length (sheet_in table).pairs ≡ table.marks },
    // uses and rooms in range, pairs of different rooms, no two of the same
    ghost sound: { ∥ Sound (sheet_in table) ∥₁ },
    // some list of calls on a fresh board made this sheet
    ghost made: { ∥ ((calls : List Call) × (sheet_in table ≡ sheet_after calls)) ∥₁ },
}
