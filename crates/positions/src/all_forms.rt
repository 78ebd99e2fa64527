// The forms of a room: its own, and those of all its positions.
ghost use Rattle.std.specs.Prelude.{◌≡◌, ℕ, ◌<◌, ◌≤◌, length, IfOk, slice_index};
ghost use Rattle.board.specs.Values.{grid_of};
ghost use Rattle.forms.specs.Values.{Stays};
ghost use Rattle.positions.specs.Answers.{Listed, RoomAnswer, PositionsLaw};
ghost use Rattle.positions.specs.Values.{room_squares, full_of};

use crate::form::form;
use crate::room::RoomMoves;
use canonical::canonical::Refusal;
use canonical::rising::insert;
use forms::table::Table;
use std::alloc::{AllocError, Global};

// The room's own form, and the forms of all its positions, rising.
#[derive(Drop)]
pub struct RoomForms {
    pub own: u16,
    pub all: Vec<u16>,
}

// The forms of a room at all its positions. What is known of its sets is kept in `positions`, which is cleared first.
pub fn room_forms(
    heap: Global,
    room: &RoomMoves,
    table: &mut Table,
    positions: &mut [u32],
) -> Result<RoomForms, Refusal>
    requires { full_of room.now < length positions.old }
    ensures answer { RoomAnswer (grid_of room.now.board) (room_squares room.now) table.old table.new result }
    ensures stays { Stays table.old table.new }
{
    let full = room.full();
    let sets = &mut positions[..full as usize + 1];
    sets.fill(0);
    let own = form(heap, room, table, sets, full)?;
    let all = noted_forms(heap, sets)?;
    Ok(RoomForms { own, all })
}

// The forms that are noted of any set, rising. In the lent row 0 stands for none.
fn noted_forms(heap: Global, sets: &[u32]) -> Result<Vec<u16>, AllocError>
    requires { (k : ℕ) → slice_index sets.now k ≤ 65536 }
    ensures { IfOk result (λ v. Listed sets.now (length sets.now) v.items) }
{
    let mut all = Vec::new(heap);
    for noted in sets {
        if *noted == 0 {
            continue;
        }
        insert(&mut all, (*noted - 1) as u16)?;
    }
    Ok(all)
}

// What the game of a board reaches are the games of the boards that planks make of it.
pub fn positions_stand()
    ensures { PositionsLaw }
{}
