// The forms of positions: that of a set is made of the forms of what the moves leave of it.
ghost use Rattle.std.specs.Prelude.{◌≡◌, suc, ◌<◌, ◌≤◌, length, MatchOption, slice_index};
ghost use Rattle.board.specs.Values.{side_of};
ghost use Rattle.forms.specs.Values.{Stays};
ghost use Rattle.positions.specs.Forming.{LeadsTo, Remembered, Formed, RowFormed};
ghost use Rattle.positions.specs.Values.{full_of};

use crate::room::RoomMoves;
use board::side::Side;
use canonical::canonical::{Refusal, canonical};
use canonical::rising::insert;
use forms::rows::Rows;
use forms::table::Table;
use std::alloc::Global;

// The form of the position at a set of squares. What is known of a set is kept in `positions`: 0, or one more than the number of its form.
#[cycle(form_option_row)]
pub fn form(
    heap: Global,
    room: &RoomMoves,
    table: &mut Table,
    positions: &mut [u32],
    set: u16,
) -> Result<u16, Refusal>
    requires long { full_of room.now < length positions.old }
    requires memory { Remembered room.now table.old positions.old }
    requires reached { LeadsTo room.now set }
    ensures answer { Formed room.now set table.old positions.old table.new positions.new result }
    ensures stays { Stays table.old table.new }
{
    // a table always holds form 0
    prove!(table.used > 0);
    if let Some(known) = recall(positions, set) {
        return Ok(known);
    }
    let upright = option_row(heap, room, table, positions, set, Side::Upright)?;
    let flat = option_row(heap, room, table, positions, set, Side::Flat)?;
    let rows = Rows {
        upright: upright.as_slice(),
        flat: flat.as_slice(),
    };
    let found = canonical(heap, table, rows)?;
    positions[set as usize] = found as u32 + 1;
    Ok(found)
}

// The form that is noted of a set, or None where none is: the row is lent as plain numbers, so 0 stands for none there.
fn recall(positions: &[u32], set: u16) -> Option<u16>
    requires long { set < length positions.now }
    requires fits { slice_index positions.now set ≤ 65536 }
    ensures { MatchOption result (slice_index positions.now set ≡ 0) (λ k. slice_index positions.now set ≡ suc k) }
{
    let noted = positions[set as usize];
    if noted == 0 {
        return None;
    }
    Some((noted - 1) as u16)
}

// The forms of what a side may make of the position at a set, rising.
#[cycle(form_option_row)]
fn option_row(
    heap: Global,
    room: &RoomMoves,
    table: &mut Table,
    positions: &mut [u32],
    set: u16,
    side: Side,
) -> Result<Vec<u16>, Refusal>
    requires long { full_of room.now < length positions.old }
    requires memory { Remembered room.now table.old positions.old }
    requires reached { LeadsTo room.now set }
    ensures answer { RowFormed room.now set (side_of side) table.old positions.old table.new positions.new result }
    ensures stays { Stays table.old table.new }
{
    // a table always holds form 0
    prove!(table.used > 0);
    let mut row = Vec::new(heap);
    // a move is told by the number of its square
    for i in 0..room.len() {
        let Some(rest) = room.after(set, side, i) else {
            continue;
        };
        let found = form(heap, room, table, positions, rest)?;
        insert(&mut row, found)?;
    }
    Ok(row)
}
