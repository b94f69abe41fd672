// The sheet level: words, the board that holds a sheet, and the calls that change it.
#![tactic(auto)]

pub mod board;
pub mod edit;
pub mod pair;
mod table;
#[cfg(test)]
mod tests;
mod word;
