// What a list of rooms tells.
ghost use Rattle.std.specs.Prelude.{◌≡◌, map, length};
ghost use Rattle.rooms.specs.Walks.{first};
ghost use Rattle.rooms.specs.Values.{squares_of, rooms_of};

use crate::list::Rooms;
use crate::room::Room;

impl Room {
    // The room's squares, rising.
    pub fn squares(&self) -> &[u16]
        ensures { result.now ≡ squares_of self.now }
    {
        self.squares.as_slice()
    }

    // The room's first square.
    pub fn first(&self) -> u16
        ensures { result ≡ first (squares_of self.now) }
    {
        self.squares().first().copied().unwrap_or(0)
    }
}

impl Rooms {
    // How many rooms there are.
    pub fn len(&self) -> usize
        ensures { result ≡ length (rooms_of self.now) }
    {
        self.as_slice().len()
    }

    // The rooms, in the order of their first squares.
    pub fn as_slice(&self) -> &[Room]
        ensures { map squares_of result.now ≡ rooms_of self.now }
    {
        self.rooms.as_slice()
    }
}
