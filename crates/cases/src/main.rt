// Boards and records with known answers, run through the library: what is printed is checked in.
#![tactic(auto)]

use agree::agreement;
use forms_of::rooms_of_squares;
use referee::follow::follow;
use std::io;
use tallies::counts;
use verdict::judge::judge_file;

mod agree;
mod forms_of;
mod tallies;

// A board by its name, its width and height, and its squares, row after row.
#[derive(Clone, Copy)]
struct Case {
    name: &'static str,
    width: u8,
    height: u8,
    squares: &'static [u8],
}

const CASES: [Case; 13] = [
    Case {
        name: "A",
        width: 1,
        height: 1,
        squares: b".",
    },
    Case {
        name: "B",
        width: 1,
        height: 2,
        squares: b"..",
    },
    Case {
        name: "C",
        width: 2,
        height: 1,
        squares: b"..",
    },
    Case {
        name: "D",
        width: 2,
        height: 2,
        squares: b"....",
    },
    Case {
        name: "E",
        width: 2,
        height: 2,
        squares: b"...#",
    },
    Case {
        name: "F",
        width: 3,
        height: 3,
        squares: b"...###..#",
    },
    Case {
        name: "G",
        width: 5,
        height: 2,
        squares: b"..#....#..",
    },
    Case {
        name: "H",
        width: 5,
        height: 2,
        squares: b"..#....#.#",
    },
    Case {
        name: "I",
        width: 3,
        height: 3,
        squares: b".........",
    },
    Case {
        name: "J",
        width: 4,
        height: 2,
        squares: b"........",
    },
    Case {
        name: "K",
        width: 6,
        height: 3,
        squares: b"..#.....#...####..",
    },
    Case {
        name: "L",
        width: 5,
        height: 3,
        squares: b"...............",
    },
    Case {
        name: "M",
        width: 5,
        height: 4,
        squares: b".#.#..#.#.#####..#..",
    },
];

// The answer for one board with one side to move.
fn judge_case(rt: &HostRuntime, case: Case, side: u8) -> io::Result<()> {
    let mut bytes = Vec::new(rt.alloc());
    bytes.push(case.width)?;
    bytes.push(case.height)?;
    bytes.push(side)?;
    bytes.extend_from_slice(case.squares)?;
    judge_bytes(rt, case.name, bytes.as_slice())
}

// The answer for a file that is judged.
fn judge_bytes(rt: &HostRuntime, what: &str, bytes: &[u8]) -> io::Result<()> {
    match judge_file(bytes) {
        Ok(judgement) => {
            let count = judgement.rooms.len();
            let said = judgement.said;
            println!(rt; "{what}: rooms {count}, {said}")
        }
        Err(refusal) => println!(rt; "{what}: {refusal}"),
    }
}

// The answer for a record.
fn follow_bytes(rt: &HostRuntime, what: &str, bytes: &[u8]) -> io::Result<()> {
    match follow(bytes) {
        Ok(outcome) => println!(rt; "{what}: {outcome}"),
        Err(refusal) => println!(rt; "{what}: {refusal}"),
    }
}

// Files that are refused, and the order of the checks.
fn refused(rt: &HostRuntime) -> io::Result<()> {
    judge_bytes(rt, "the empty file", b"")?;
    judge_bytes(rt, "a width and no more", b"\x02")?;
    judge_bytes(rt, "no side", b"\x02\x02")?;
    judge_bytes(rt, "a width of 0", b"\x00")?;
    judge_bytes(rt, "a width of 17 before a height of 0", b"\x11\x00x")?;
    judge_bytes(rt, "a height of 17 before a wrong side", b"\x10\x11x")?;
    judge_bytes(rt, "a wrong side before a wrong length", b"\x02\x02x...")?;
    judge_bytes(rt, "a wrong length before a wrong square", b"\x02\x02u..x")?;
    judge_bytes(rt, "a board that goes on", b"\x02\x02u.....")?;
    judge_bytes(rt, "a wrong square", b"\x02\x02u..x.")?;
    judge_bytes(
        rt,
        "a room of 21 squares",
        b"\x03\x07u.....................",
    )?;
    judge_bytes(
        rt,
        "24 free squares in two rooms",
        b"\x06\x05u............######............",
    )
}

// Records: planks laid in turn, the last move, and what is refused.
fn records(rt: &HostRuntime) -> io::Result<()> {
    follow_bytes(rt, "no planks", b"\x02\x02u....")?;
    follow_bytes(rt, "one plank", b"\x02\x02u....\x00")?;
    follow_bytes(rt, "two planks", b"\x04\x02u........\x00\x02")?;
    follow_bytes(rt, "to the end", b"\x02\x02u....\x00\x01")?;
    follow_bytes(rt, "nothing to lay from the start", b"\x01\x01u.")?;
    follow_bytes(
        rt,
        "the second plank on the first",
        b"\x03\x03u.........\x00\x03",
    )?;
    follow_bytes(rt, "a plank round the edge", b"\x03\x02f......\x02")?;
    follow_bytes(rt, "a record cut short", b"\x02\x02u...")?;
    follow_bytes(rt, "a record with a wrong square", b"\x02\x02u...x\x00")?;
    follow_bytes(
        rt,
        "a large board with a wrong plank",
        b"\x03\x07u.....................\x14",
    )
}

fn main(rt: HostRuntime) -> io::Result<()> {
    for case in CASES {
        judge_case(&rt, case, b'u')?;
        judge_case(&rt, case, b'f')?;
    }
    refused(&rt)?;
    records(&rt)?;
    rooms_of_squares(&rt)?;
    counts(&rt)?;
    agreement(&rt)
}
