// The planks that a side may lay, tried one after the other.
ghost use Rattle.board.specs.Values.{side_of, grid_of};
ghost use Rattle.sums.specs.Values.{SameMemory};
ghost use Rattle.verdict.specs.Trying.{NotLarge, HasSmallRooms, FoundWorth, TriedAnswer};

use crate::lost::has_lost;
use crate::worth::{Failure, board_worth};
use board::board::Board;
use board::side::Side;
use rooms::split::Split;
use std::alloc::Global;
use sums::memory::Memory;
use sums::row::RowForms;

// The worth of a board that has no room of more than 16 squares, however many rooms it has.
fn found_worth(heap: Global, board: &Board, memory: &mut Memory) -> Result<RowForms, Failure>
    requires { NotLarge (grid_of board.now) }
    ensures answer { FoundWorth (grid_of board.now) memory.old.sums memory.new.sums result }
    ensures same { SameMemory memory.old memory.new }
{
    let Ok(split) = Split::of(board) else {
        unreachable!()
    };
    board_worth(heap, &split, memory)
}

// The worth of every board that a plank of this side makes: the first place after which the other side has lost, if there is one. Count where one is
// past the limits.
pub fn try_places(
    heap: Global,
    board: &Board,
    side: Side,
    memory: &mut Memory,
) -> Result<Option<u16>, Failure>
    requires { HasSmallRooms (grid_of board.now) }
    ensures answer { TriedAnswer (side_of side) (grid_of board.now) memory.old.sums memory.new.sums result }
    ensures same { SameMemory memory.old memory.new }
{
    let mut first = None;
    for place in 0..board.size() {
        let Some(next) = board.lay(side, place) else {
            continue;
        };
        let worth = found_worth(heap, &next, memory)?;
        if first.is_some() || !has_lost(&memory.sums.in_use(), worth.sum, side.other()) {
            continue;
        }
        first = Some(place);
    }
    Ok(first)
}
