// Forms and play, compared on every board of three by three.
ghost use Rattle.std.specs.Prelude.{◌≤◌};

use board::read::read_board;
use forms::rows::BLANK;
use forms::table::Table;
use rooms::split::Split;
use search::first_win;
use std::io;
use sums::memory::Memory;
use sums::sum::Sums;
use verdict::choose::choose;

// The board file of three by three squares, of which these are taken.
fn board_of(taken: u16, side: u8) -> [u8; 12] {
    let mut bytes = [b'.'; 12];
    bytes[0] = 3;
    bytes[1] = 3;
    bytes[2] = side;
    let mut rest = taken;
    for square in &mut bytes[3..] {
        if rest % 2 == 1 {
            *square = b'#';
        }
        rest /= 2;
    }
    bytes
}

// Do forms and play give the same answer for the board that a file holds.
fn is_same(rt: &HostRuntime, bytes: &[u8]) -> bool {
    let Ok(setup) = read_board(bytes) else {
        return false;
    };
    let Ok(split) = Split::of(&setup.board) else {
        return false;
    };
    let mut forms = [BLANK; 128];
    let mut options = [0u16; 4096];
    let mut pairs = [0u32; 512];
    let mut positions = [0u32; 512];
    let Some(table) = Table::new(&mut forms, &mut options) else {
        return false;
    };
    let mut memory = Memory {
        sums: Sums::new(table, &mut pairs),
        positions: &mut positions,
    };
    let Ok(found) = choose(rt.alloc(), &split, setup.side, &mut memory) else {
        return false;
    };
    found == first_win(&setup.board, setup.side)
}

// On how many of the boards they agree, with this side to move.
fn agreed(rt: &HostRuntime, side: u8) -> usize
    ensures { result ≤ 512 }
{
    (0..512)
        .filter(|taken| is_same(rt, &board_of(*taken, side)))
        .count()
}

// On how many of the boards they agree, for both sides.
pub(crate) fn agreement(rt: &HostRuntime) -> io::Result<()> {
    let count = agreed(rt, b'u') + agreed(rt, b'f');
    println!(rt; "three by three: forms and play agree on {count} of 1024 boards")
}
