// Values of games as numbered forms in lent memory: their rows, the test of order, look-up and growth.
#![tactic(auto)]

pub mod order;
pub mod rows;
pub mod table;
