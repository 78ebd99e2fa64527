// Rooms with known numbers of forms and of positions.
use board::read::read_board;
use forms::rows::BLANK;
use forms::table::Table;
use positions::all_forms::room_forms;
use positions::room::RoomMoves;
use rooms::find::all_rooms;
use std::io;

// How many of these sets something is known of.
fn count_noted(sets: &[u32]) -> usize {
    // in the lent row 0 stands for none
    sets.iter().filter(|noted| **noted > 0).count()
}

// How many forms a room has at how many positions, in a table that goes on from room to room.
fn tell_forms(rt: &HostRuntime, what: &str, room: &RoomMoves, table: &mut Table) -> io::Result<()> {
    let mut positions = [0u32; 65536];
    let Ok(found) = room_forms(rt.alloc(), room, table, &mut positions) else {
        return Err(io::Error::other("the table is full"));
    };
    let own = found.own;
    let count = found.all.len();
    let reached = count_noted(&positions);
    println!(rt; "{what}: form {own}, {count} forms of {reached} positions")
}

// The rooms of the board that a file holds, in one table.
fn tell_rooms(rt: &HostRuntime, what: &str, bytes: &[u8]) -> io::Result<()> {
    let Ok(setup) = read_board(bytes) else {
        return println!(rt; "{what}: not read");
    };
    let Ok(rooms) = all_rooms(&setup.board) else {
        return println!(rt; "{what}: refused");
    };
    let mut forms = [BLANK; 512];
    let mut options = [0u16; 16384];
    let Some(mut table) = Table::new(&mut forms, &mut options) else {
        return println!(rt; "{what}: no table");
    };
    for room in rooms.as_slice() {
        let moves = RoomMoves::new(&setup.board, room);
        tell_forms(rt, what, &moves, &mut table)?;
    }
    Ok(())
}

// Rooms by their squares; the last board has a two by two room and a three by three room, which have one form.
pub(crate) fn rooms_of_squares(rt: &HostRuntime) -> io::Result<()> {
    tell_rooms(rt, "two by two", b"\x02\x02u....")?;
    tell_rooms(rt, "two by three", b"\x02\x03u......")?;
    tell_rooms(rt, "two by four", b"\x02\x04u........")?;
    tell_rooms(rt, "three by five", b"\x03\x05u...............")?;
    tell_rooms(rt, "four by four", b"\x04\x04u................")?;
    tell_rooms(rt, "one by sixteen", b"\x01\x10u................")?;
    tell_rooms(
        rt,
        "two by two and three by three",
        b"\x06\x03u..#.....#...###...",
    )
}
