// A board with its rooms, none of more than 16 squares.
ghost use Rattle.board.specs.Values.{grid_of};
ghost use Rattle.rooms.specs.Splits.{SplitOf};

use crate::find::all_rooms;
use crate::list::Rooms;
use board::board::Board;
use board::refusal::Refusal;
use std::marker::Model;

#[derive(Drop)]
pub struct Split<'a> {
    pub board: &'a Board,
    pub rooms: Rooms,
}

impl<'a> Model for Split<'a> {
    ghost use Rattle.board.specs.Values.{grid_of};
    ghost use Rattle.rooms.specs.Values.{rooms_of, SmallRooms};
    ghost use Rattle.rooms.specs.Held.{Parts};

    ghost Value = { Parts };

    ghost view = { λ s. record { board = grid_of s.board.now; rooms = rooms_of s.rooms } };

    ghost invariant = { λ s. SmallRooms (grid_of s.board.now) (rooms_of s.rooms) };
}

impl<'a> Split<'a> {
    // The board with all its rooms, however many they are; or the refusal of the first that has more than 16 squares.
    pub fn of(board: &'a Board) -> Result<Split<'a>, Refusal>
        ensures { SplitOf (grid_of board.now) result }
    {
        let rooms = all_rooms(board)?;
        Ok(Split { board, rooms })
    }
}
