// Finding the rooms of a board by walking from square to square.
ghost use Rattle.std.specs.Prelude.{◌≡◌, true, false};
ghost use Rattle.board.specs.Grid.{free};
ghost use Rattle.board.specs.Values.{grid_of};
ghost use Rattle.rooms.specs.Few.{items_of};
ghost use Rattle.rooms.specs.Growth.{Visit, marked};
ghost use Rattle.rooms.specs.Values.{Walked, Found, Judged};

use crate::few::Few;
use crate::list::Rooms;
use crate::room::{LARGEST, Room};
use board::board::Board;
use board::refusal::Refusal;
use board::ways::WAYS;

// The squares that a room has at least.
const FEWEST: usize = 2;

// The rooms that a board has at most that is judged.
const MOST: usize = 32;

// The free neighbours of a square that were not seen before are marked and join the squares found; None where there is no place left.
fn visit(
    board: &Board,
    from: u16,
    seen: &mut [bool; 256],
    squares: &mut Few<u16, LARGEST>,
) -> Option<()>
    ensures { Visit (grid_of board.now) from seen.old seen.new (items_of squares.old) (items_of squares.new) result }
{
    for way in WAYS {
        let Some(q) = board.neighbour(from, way) else {
            continue;
        };
        if seen[q as usize] {
            continue;
        }
        squares.push(q)?;
        seen[q as usize] = true;
    }
    Some(())
}

// Walks from a free square that is not marked over free neighbours, and marks them: all that is reached, or None where that is more than 16 squares.
fn walk(board: &Board, first: u16, seen: &mut [bool; 256]) -> Option<Room>
    requires start { free (grid_of board.now) first ≡ true }
    requires fresh { marked seen.old first ≡ false }
    ensures { Walked (grid_of board.now) first seen.old seen.new result }
{
    let mut squares = Few::new(first);
    squares.push(first)?;
    seen[first as usize] = true;
    let mut at = 0;
    // the list grows as its squares are visited
    while let Some(q) = squares.as_slice().get(at) {
        visit(board, *q, seen, &mut squares)?;
        at += 1;
    }
    squares.sort();
    Some(Room { squares })
}

// All rooms of a board, in the order of their first squares, however many they are; or the refusal of the first that has more than 16 squares.
pub fn all_rooms(board: &Board) -> Result<Rooms, Refusal>
    ensures { Found (grid_of board.now) result }
{
    let mut rooms = Few::new(Room {
        squares: Few::new(0),
    });
    let mut seen = [false; 256];
    for p in 0..board.size() {
        if !board.is_free(p) {
            continue;
        }
        if seen[p as usize] {
            continue;
        }
        let room = walk(board, p, &mut seen).ok_or(Refusal::Room(p))?;
        if room.squares().len() < FEWEST {
            continue;
        }
        rooms.push(room).unwrap();
    }
    Ok(Rooms { rooms })
}

// The rooms of a board that is to be judged: at most 32, of at most 16 squares each. A room that is too large is refused before too many rooms.
pub fn judged_rooms(board: &Board) -> Result<Rooms, Refusal>
    ensures { Judged (grid_of board.now) result }
{
    let rooms = all_rooms(board)?;
    if let Some(room) = rooms.as_slice().get(MOST) {
        return Err(Refusal::Rooms(room.first()));
    }
    Ok(rooms)
}
