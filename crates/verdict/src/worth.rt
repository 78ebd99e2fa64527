// What a board is worth: the form of its rooms beside each other, which tells who wins.
ghost use Rattle.std.specs.Prelude.{◌≡◌};
ghost use Rattle.sums.specs.Values.{SameMemory};
ghost use Rattle.verdict.specs.Worths.{WorthAnswer};

use canonical::canonical::Refusal;
use rooms::split::Split;
use std::alloc::Global;
use sums::memory::Memory;
use sums::row::RowForms;

// Why a board has no worth: it is past the limits, or memory is wanting.
#[derive(Clone, Copy, Drop)]
pub enum Failure {
    Count,
    NoMemory,
}

// What refuses a board for which the table was begun anew: that it is full is then the board's own doing.
impl From<Refusal> for Failure {
    ghost use Rattle.verdict.specs.Worths.{failure_of};

    ghost from_gives = { λ refusal e. e ≡ failure_of refusal };

    fn from(refusal: Refusal) -> Failure {
        match refusal {
            Refusal::Full | Refusal::Wide => Failure::Count,
            Refusal::NoMemory => Failure::NoMemory,
        }
    }
}

// The worth of a board. Forms of other boards may fill the table before its own are found; then it is begun anew for this board alone.
pub fn board_worth(heap: Global, split: &Split, memory: &mut Memory) -> Result<RowForms, Failure>
    ensures answer { WorthAnswer split.now.board split.now.rooms memory.old.sums memory.new.sums result }
    ensures same { SameMemory memory.old memory.new }
{
    match memory.row_of_rooms(heap, split) {
        Ok(row) => return Ok(row),
        Err(Refusal::Full) => memory.sums.clear(),
        Err(Refusal::Wide) => return Err(Failure::Count),
        Err(Refusal::NoMemory) => return Err(Failure::NoMemory),
    }
    Ok(memory.row_of_rooms(heap, split)?)
}
