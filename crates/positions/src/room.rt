// A room of a board, with its moves as sets of its squares: bit i of a set stands for square number i of the room.
ghost use Rattle.board.specs.Values.{grid_of};
ghost use Rattle.rooms.specs.Values.{squares_of};
ghost use Rattle.positions.specs.Sets.{Ground, ground_prop};

use board::board::Board;
use rooms::room::Room;

#[derive(Clone, Copy)]
pub struct RoomMoves {
    pub(crate) board: Board,
    pub(crate) room: Room,
    // for each side and each square of the room, the squares that the move there covers, or None where no such move lies in the room
    // (an array by value for each side: a room is copied, and no heap is needed)
    pub(crate) upright: [Option<u16>; 16],
    pub(crate) flat: [Option<u16>; 16],
    pub ghost ground: { Ground (grid_of board) (squares_of room) upright flat } by { ground_prop (grid_of board) (squares_of room) upright flat },
}
