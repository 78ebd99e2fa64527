// Follows the record in a file: who made the last move, or how the game stands.
#![tactic(auto)]

use input::given_file;
use referee::follow::follow;
use std::io;
use std::process::ExitCode;

fn main(rt: HostRuntime) -> io::Result<ExitCode> {
    let Ok(bytes) = given_file(&rt, "follow") else {
        return Ok(ExitCode::FAILURE);
    };
    match follow(bytes.as_slice()) {
        Ok(outcome) => println!(rt; "{outcome}")?,
        Err(refusal) => println!(rt; "{refusal}")?,
    }
    Ok(ExitCode::SUCCESS)
}
