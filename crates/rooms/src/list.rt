// The rooms of a board, by value: a board of 256 squares has at most 128.
use crate::few::Few;
use crate::room::Room;

#[derive(Clone, Copy)]
pub struct Rooms {
    pub(crate) rooms: Few<Room, 128>,
}
