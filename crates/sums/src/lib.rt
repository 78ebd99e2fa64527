// Rooms beside each other: the sum of two forms, the row of rooms, and rooms that are alike.
#![tactic(auto)]

pub mod alike;
pub mod between;
pub mod join;
pub mod memory;
pub mod pairs;
pub mod reach;
pub mod row;
pub mod sum;
