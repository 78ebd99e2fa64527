// The forms of a room at all its positions.
#![tactic(auto)]

pub mod all_forms;
pub mod form;
pub mod moves;
pub mod room;
