// The referee: follows the record of a game, and says who made the last move or how the game stands.
#![tactic(auto)]

pub mod follow;
pub mod outcome;
#[cfg(test)]
mod tests;
