// A room as the program holds it: its squares in rising order, by value.
use crate::few::Few;

// The squares that a room has at most.
pub(crate) const LARGEST: usize = 16;

#[derive(Clone, Copy)]
pub struct Room {
    pub(crate) squares: Few<u16, LARGEST>,
}
