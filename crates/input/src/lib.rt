// Reading the one file that a program is given, and telling that memory is wanting.
#![tactic(auto)]

ghost use Rattle.std.specs.Prelude.{◌≤◌, IfOk, vec_len, OnOk};

use std::fs::File;
use std::io::Read;
use std::{env, io};

// No board or record needs as many bytes: a longer file is an error, and an endless one too.
const MOST: usize = 1048576;

// The bytes of the file that the program's one argument names. What is wrong is told in one line on standard error.
pub fn given_file(rt: &HostRuntime, program: &str) -> io::Result<Vec<u8>>
    ensures { IfOk result (λ v. vec_len v ≤ 1048576) }
{
    let name = match one_argument(rt) {
        Ok(name) => name,
        Err(e) => {
            eprintln!(rt; "planks: {e}; write: planks {program} FILE")?;
            return Err(e);
        }
    };
    match read_file(rt, name.as_str()) {
        Ok(bytes) => Ok(bytes),
        Err(e) => {
            eprintln!(rt; "planks: {name:?}: {e}")?;
            Err(e)
        }
    }
}

// The program's one argument.
fn one_argument(rt: &HostRuntime) -> io::Result<String> {
    let mut args = env::args(rt)?.skip(1);
    let Some(name) = args.next() else {
        return Err(io::Error::other("a file is wanted"));
    };
    if args.next().is_some() {
        return Err(io::Error::other("one file is wanted"));
    }
    Ok(name)
}

// The bytes of a file, if they are not too many.
fn read_file(rt: &HostRuntime, path: &str) -> io::Result<Vec<u8>>
    ensures { IfOk result (λ v. vec_len v ≤ 1048576) }
{
    let mut bytes = Vec::new(rt.alloc());
    File::open(rt, path)?
        .take(MOST as u64 + 1)
        .read_to_end(&mut bytes)?;
    if bytes.len() > MOST {
        return Err(io::Error::other("longer than any board or record"));
    }
    Ok(bytes)
}

// Memory is wanting: told in one line on standard error.
pub fn no_memory(rt: &HostRuntime) -> io::Result<()>
    ensures { OnOk result (⊥) }
{
    eprintln!(rt; "planks: memory is wanting")?;
    Err(io::Error::other("memory is wanting"))
}
