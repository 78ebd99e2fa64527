// One room more beside a row of rooms.
ghost use Rattle.std.specs.Prelude.{◌<◌};
ghost use Rattle.board.specs.Values.{grid_of};
ghost use Rattle.positions.specs.Values.{room_squares};
ghost use Rattle.sums.specs.Values.{SameMemory, JoinOf};

use crate::memory::Memory;
use crate::reach::reached;
use canonical::canonical::Refusal;
use positions::all_forms::room_forms;
use positions::room::RoomMoves;
use std::alloc::Global;

// The room's own form, and the sum of the row with the room.
#[derive(Clone, Copy, Drop)]
pub struct RoomJoined {
    pub own: u16,
    pub sum: u16,
}

impl Memory<'_> {
    // Joins a room to a row of rooms whose sum is form t: finds the forms of the room, and all sums of what is reached from t and what is reached from
    // the room. NoMemory also where `positions` has no place for all sets of the room's squares.
    pub fn join(&mut self, heap: Global, room: &RoomMoves, t: u16) -> Result<RoomJoined, Refusal>
        requires { t < self.old.sums.table.used }
        ensures answer { JoinOf t (grid_of room.now.board) (room_squares room.now) self.old.sums self.new.sums result }
        ensures same { SameMemory self.old self.new }
    {
        if self.positions.len() <= room.full() as usize {
            return Err(Refusal::NoMemory);
        }
        let found = room_forms(heap, room, &mut self.sums.table, self.positions)?;
        let reach = reached(heap, &self.sums.table.in_use(), t)?;
        self.sums
            .all_sums(heap, reach.as_slice(), found.all.as_slice())?;
        let sum = self.sums.sum(heap, t, found.own)?;
        Ok(RoomJoined {
            own: found.own,
            sum,
        })
    }
}
