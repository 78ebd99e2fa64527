// Boards of planks: the two sides, what may be laid, the board after a plank, reading a board from bytes, and the refusals.
#![tactic(auto)]

pub mod board;
pub mod moves;
pub mod neighbours;
pub mod read;
pub mod refusal;
pub mod rules;
pub mod side;
pub mod theory;
pub mod ways;
