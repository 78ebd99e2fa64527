// The rooms of a board beside each other.
ghost use Rattle.rooms.specs.Values.{SmallRooms};
ghost use Rattle.sums.specs.Values.{SameMemory, RoomsOf};

use crate::memory::Memory;
use canonical::canonical::Refusal;
use positions::room::RoomMoves;
use rooms::split::Split;
use std::alloc::Global;

// The form of the whole board, and for each room its own form.
#[derive(Drop)]
pub struct RowForms {
    pub sum: u16,
    pub owns: Vec<u16>,
}

impl Memory<'_> {
    // The form of a board: that of its rooms beside each other. On the way it finds all forms that count for the board. Full where there is no place
    // for them all in the table, whose length is the limit; from a table of one form, only where the board's count is above the limit.
    pub fn row_of_rooms(&mut self, heap: Global, split: &Split) -> Result<RowForms, Refusal>
        ensures answer { RoomsOf split.now.board split.now.rooms self.old.sums self.new.sums result }
        ensures rooms { SmallRooms split.now.board split.now.rooms }
        ensures same { SameMemory self.old self.new }
    {
        // a table always holds form 0
        prove!(self.sums.table.used > 0);
        let mut sum = 0;
        let mut owns = Vec::new(heap);
        let held = split.rooms.as_slice();
        for room in held {
            let moves = RoomMoves::new(split.board, room);
            let joined = self.join(heap, &moves, sum)?;
            owns.push(joined.own)?;
            sum = joined.sum;
        }
        Ok(RowForms { sum, owns })
    }
}
