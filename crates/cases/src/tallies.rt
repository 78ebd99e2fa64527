// Boards with known counts, forms and rooms that are alike.
use board::read::read_board;
use forms::rows::BLANK;
use forms::table::Table;
use rooms::split::Split;
use std::io;
use sums::alike::alike;
use sums::memory::Memory;
use sums::sum::Sums;

// The form and the count of the board that a file holds, from a table of one form, and its rooms that are alike. At most 512 forms.
fn tell_count(rt: &HostRuntime, what: &str, bytes: &[u8]) -> io::Result<()> {
    let Ok(setup) = read_board(bytes) else {
        return println!(rt; "{what}: not read");
    };
    let Ok(split) = Split::of(&setup.board) else {
        return println!(rt; "{what}: refused");
    };
    let mut forms = [BLANK; 512];
    let mut options = [0u16; 16384];
    let mut pairs = [0u32; 4096];
    let mut positions = [0u32; 65536];
    let Some(table) = Table::new(&mut forms, &mut options) else {
        return println!(rt; "{what}: no table");
    };
    let mut memory = Memory {
        sums: Sums::new(table, &mut pairs),
        positions: &mut positions,
    };
    let Ok(found) = memory.row_of_rooms(rt.alloc(), &split) else {
        return println!(rt; "{what}: no answer");
    };
    let sum = found.sum;
    let count = memory.sums.table.used;
    println!(rt; "{what}: form {sum}, count {count}")?;
    let owns = found.owns.as_slice();
    // `alike` asks for the number of a room
    for i in 0..owns.len() {
        if let Some(j) = alike(owns, i) {
            println!(rt; "{what}: room {i} like {j}")?;
        }
    }
    Ok(())
}

// Boards with their counts; on the fifth the count is lower than on the sixth, a board after one plank.
pub(crate) fn counts(rt: &HostRuntime) -> io::Result<()> {
    tell_count(rt, "two blocks", b"\x05\x02u..#....#..")?;
    tell_count(rt, "a block and a corner", b"\x05\x02u..#....#.#")?;
    tell_count(
        rt,
        "three upright moves, two flat ones",
        b"\x05\x04u.#.#..#.#.#####..#..",
    )?;
    tell_count(
        rt,
        "a block and three by three",
        b"\x06\x03u..#.....#...###...",
    )?;
    tell_count(rt, "a count that rises", b"\x02\x05u..#...##..")?;
    tell_count(rt, "after a flat plank at 0", b"\x02\x05u###...##..")?;
    tell_count(rt, "no rooms", b"\x01\x01u.")
}
