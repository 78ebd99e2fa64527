// Judges the board in a file: its rooms, who makes the last move, and where to lay.
#![tactic(auto)]

use input::given_file;
use std::io;
use std::process::ExitCode;
use verdict::judge::{Judgement, judge_file};
use verdict::verdict::{RoomCount, RoomPlace};

// The rooms, a line each, and the verdict's line.
fn tell(rt: &HostRuntime, judgement: &Judgement) -> io::Result<()> {
    let rooms = judgement.rooms.as_slice();
    println!(rt; "{}", RoomCount(rooms.len()))?;
    for (number, room) in rooms.iter().enumerate() {
        let place = RoomPlace {
            number,
            first: room.first(),
        };
        println!(rt; "{place}")?;
    }
    let said = judgement.said;
    println!(rt; "{said}")
}

fn main(rt: HostRuntime) -> io::Result<ExitCode> {
    let Ok(bytes) = given_file(&rt, "judge") else {
        return Ok(ExitCode::FAILURE);
    };
    match judge_file(bytes.as_slice()) {
        Ok(judgement) => tell(&rt, &judgement)?,
        Err(refusal) => println!(rt; "{refusal}")?,
    }
    Ok(ExitCode::SUCCESS)
}
