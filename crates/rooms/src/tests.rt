// The rooms of a few boards.
use crate::find::judged_rooms;
use crate::list::Rooms;
use board::read::read_board;
use board::refusal::Refusal;
use std::test::Fail;

// The rooms of the board that a file holds.
fn found(file: &[u8]) -> Result<Rooms, Refusal> {
    let setup = read_board(file)?;
    judged_rooms(&setup.board)
}

// Why the board that a file holds is refused.
fn refused(file: &[u8]) -> Option<Refusal> {
    found(file).err()
}

// The number of rooms, and the first squares of the second and the last.
fn summary(file: &[u8]) -> Result<(usize, u16, u16), Refusal> {
    let rooms = found(file)?;
    let held = rooms.as_slice();
    let second = held.get(1).map_or(0, |room| room.first());
    let last = held.last().map_or(0, |room| room.first());
    Ok((held.len(), second, last))
}

#[test]
fn small_boards(rt: HostRuntime) -> Result<(), Fail> {
    assert_eq!(rt; summary(b"\x05\x02u..#....#..")?, (2, 3, 3));
    assert_eq!(rt; summary(b"\x05\x02u..#....#.#")?, (2, 3, 3));
    assert_eq!(rt; summary(b"\x06\x03u..#.....#...####..")?, (2, 3, 3));
    assert_eq!(rt; summary(b"\x05\x04u.#.#..#.#.#####..#..")?, (5, 2, 18));
    Ok(())
}

#[test]
fn large_rooms(rt: HostRuntime) -> Result<(), Fail> {
    let mut full = [b'.'; 259];
    full[0] = 16;
    full[1] = 16;
    full[2] = b'u';
    assert_eq!(rt; refused(&full), Some(Refusal::Room(0)));
    assert_eq!(rt; summary(b"\x05\x05u#....####....#..###......")?, (1, 0, 1));
    assert_eq!(rt;
        refused(b"\x05\x05u.....####....#..###......"),
        Some(Refusal::Room(0))
    );
    Ok(())
}

#[test]
fn many_rooms(rt: HostRuntime) {
    let many =
        b"\x10\x10u..#..#..#..#..##################..#..#..#..#..##################..#..#..#..#..##################..#..#..#..#..##################..#..#..#..#..##################..#..#..#..#..##################..#..#..#..#..##################..#..#..#..#..##################";
    assert_eq!(rt; refused(many), Some(Refusal::Rooms(198)));
    let large =
        b"\x10\x10u..#..#..#..#..##################..#..#..#..#..##################..#..#..#..#..##################..#..#..#..#..##################..#..#..#..#..##################..#..#..#..#..#.###############...#..#..#..#..##################.#.#.#...........#.#.#..........";
    assert_eq!(rt; refused(large), Some(Refusal::Room(230)));
}
