// The place to lay at, found by forms.
ghost use Rattle.std.specs.Prelude.{length};
ghost use Rattle.board.specs.Values.{side_of};
ghost use Rattle.sums.specs.Values.{SameMemory};
ghost use Rattle.verdict.specs.Choosing.{Chosen};

use crate::tries::try_places;
use crate::worth::{Failure, board_worth};
use board::side::Side;
use rooms::split::Split;
use std::alloc::Global;
use sums::memory::Memory;

// The first place in reading order after which the other side has lost, or None where the side to move has lost. Count only where the board, or one
// that a plank of either side makes of it, is past the limits.
pub fn choose(
    heap: Global,
    split: &Split,
    side: Side,
    memory: &mut Memory,
) -> Result<Option<u16>, Failure>
    ensures answer { Chosen (side_of side) split.now.board (length memory.old.sums.table.forms.now) result }
    ensures same { SameMemory memory.old memory.new }
{
    board_worth(heap, split, memory)?;
    try_places(heap, split.board, side.other(), memory)?;
    try_places(heap, split.board, side, memory)
}
