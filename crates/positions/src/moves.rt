// The moves of a room as sets of its squares: bit i of a set stands for square number i of the room.
ghost use Rattle.std.specs.Prelude.{◌≡◌, ℕ, ◌-◌, ◌^◌, ◌<◌, ◌≤◌, ◌==◌, length, MatchOption, IfSome, position, slice_index};
ghost use Rattle.rooms.specs.Walks.{Rise};
ghost use Rattle.board.specs.Values.{side_of, grid_of};
ghost use Rattle.rooms.specs.Rooms.{Room as RoomOf};
ghost use Rattle.rooms.specs.Values.{squares_of};
ghost use Rattle.positions.specs.Sets.{Move, SetOf, set_in};
ghost use Rattle.positions.specs.Values.{room_squares, GroundOf, move_set, CanOf, full_of};

use crate::room::RoomMoves;
use board::board::Board;
use board::side::Side;
use rooms::room::Room;
use std::array;

// The number of a square in a room.
fn number_of(squares: &[u16], square: u16) -> Option<usize>
    ensures { result ≡ position (λ q. q == square) squares.now }
{
    squares.iter().position(|q| *q == square)
}

// The set of square number i alone.
fn single(i: usize) -> u16
    requires { i < 16 }
    ensures { result ≡ 2 ^ i }
{
    1u16 << i
}

// The set of these squares, or None where one of them is not in the room.
fn set_of(squares: &[u16], covered: &[u16]) -> Option<u16>
    requires few { length squares.now ≤ 16 }
    requires rising { Rise (λ q. q) squares.now }
    ensures set { SetOf squares.now covered.now result }
    ensures small { IfSome result (λ set. set < 2 ^ 16) }
{
    let mut set = 0;
    for q in covered {
        set |= single(number_of(squares, *q)?);
    }
    Some(set)
}

// The set of the move of a side at a square.
fn move_at(board: &Board, squares: &[u16], side: Side, square: u16) -> Option<u16>
    requires few { length squares.now ≤ 16 }
    requires rising { Rise (λ q. q) squares.now }
    ensures set { Move (grid_of board.now) squares.now (side_of side) square result }
    ensures small { IfSome result (λ set. set < 2 ^ 16) }
{
    set_of(squares, &board.covers(side, square)?)
}

// The sets of the moves of a side, square by square.
fn row_of(board: &Board, squares: &[u16], side: Side) -> [Option<u16>; 16]
    requires few { length squares.now ≤ 16 }
    requires rising { Rise (λ q. q) squares.now }
    ensures each { (i : ℕ) → i < length squares.now → Move (grid_of board.now) squares.now (side_of side) (slice_index squares.now i) (set_in result i) }
    ensures small { (i : ℕ) → IfSome (set_in result i) (λ set. set < 2 ^ 16) }
{
    array::from_fn(|i| move_at(board, squares, side, *squares.get(i)?))
}

impl RoomMoves {
    // A room of a board with its moves.
    pub fn new(board: &Board, room: &Room) -> RoomMoves
        requires room { RoomOf (grid_of board.now) (squares_of room.now) }
        ensures board { result.board ≡ board.now }
        ensures room { result.room ≡ room.now }
        ensures ground { GroundOf result }
    {
        let squares = room.squares();
        RoomMoves {
            board: *board,
            room: *room,
            upright: row_of(board, squares, Side::Upright),
            flat: row_of(board, squares, Side::Flat),
        }
    }

    // How many squares the room has.
    pub fn len(&self) -> usize
        ensures value { result ≡ length (room_squares self.now) }
        ensures bound { result ≤ 16 }
    {
        self.room.squares().len()
    }

    // The set of all squares of the room.
    pub fn full(&self) -> u16
        ensures { result ≡ full_of self.now }
    {
        ((1u32 << self.len()) - 1) as u16
    }

    // What the move of a side at square number i leaves of a set, or None where there is no such move in it.
    pub fn after(&self, set: u16, side: Side, i: usize) -> Option<u16>
        ensures { MatchOption result (CanOf self.now set (side_of side) i → ⊥) (λ rest. CanOf self.now set (side_of side) i × (rest ≡ set - move_set self.now (side_of side) i)) }
    {
        if i >= self.len() {
            return None;
        }
        let covered = match side {
            Side::Upright => self.upright[i],
            Side::Flat => self.flat[i],
        }?;
        (set & covered == covered).then(|| set - covered)
    }
}
