// The verdict: who makes the last move, and where to lay.
#![tactic(auto)]

pub mod choose;
pub mod judge;
pub mod lost;
pub mod tries;
pub mod verdict;
pub mod worth;
