// The rooms of a board: finding them, and what they are to the board.
#![tactic(auto)]

pub mod few;
pub mod find;
pub mod list;
pub mod read;
pub mod room;
pub mod split;
#[cfg(test)]
mod tests;
pub mod theory;
