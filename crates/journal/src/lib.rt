// Journals: lists of calls run from a fresh board, and their text.
#![tactic(auto)]

pub mod line;
pub mod reply;
pub mod run;
pub mod session;
pub mod tally;
#[cfg(test)]
mod tests;
pub mod text;
