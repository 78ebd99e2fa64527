// Records with known answers, as they are told.
use crate::follow::follow;
use std::test::Fail;

// The line that is printed for a record.
fn line(rt: &HostRuntime, bytes: &[u8]) -> Result<String, Fail> {
    match follow(bytes) {
        Ok(outcome) => Ok(outcome.to_string(rt.alloc())?),
        Err(refusal) => Ok(refusal.to_string(rt.alloc())?),
    }
}

#[test]
fn records_are_told(rt: HostRuntime) -> Result<(), Fail> {
    assert_eq!(rt;
        line(&rt, b"\x01\x02u..\x00")?.as_str(),
        "u made the last move"
    );
    assert_eq!(rt; line(&rt, b"\x05\x02u..#....#.#")?.as_str(), "u wins at 0");
    assert_eq!(rt; line(&rt, b"\x05\x02f..#....#..")?.as_str(), "f lost");
    assert_eq!(rt;
        line(&rt, b"\x03\x02f......\x02")?.as_str(),
        "refused 9 at 0"
    );
    Ok(())
}
