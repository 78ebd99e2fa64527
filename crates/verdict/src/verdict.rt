// A verdict, and the lines that tell a judgement.
ghost use Rattle.std.specs.Prelude.{◌≡◌, Some};
ghost use Rattle.search.specs.Answers.{answer_of as searched};
ghost use Rattle.verdict.specs.Judging.{answer_of};
ghost use Rattle.verdict.specs.Lines.{verdict_text, rooms_text, room_text};

use board::side::Side;
use std::fmt;

// For the side to move: the first place from which it makes the last move, or that it has lost. An enum of its own, since these are the two words of
// the answer that is told.
#[derive(Clone, Copy, Debug, PartialEq, Eq)]
pub enum Verdict {
    WinsAt(u16),
    Lost,
}

// What the search found, as a verdict.
impl From<Option<u16>> for Verdict {
    ghost from_gives = { λ found v. answer_of v ≡ searched found };

    fn from(found: Option<u16>) -> Verdict {
        match found {
            Some(place) => Verdict::WinsAt(place),
            None => Verdict::Lost,
        }
    }
}

// A verdict and the side that it is about.
#[derive(Clone, Copy)]
pub struct Said {
    pub side: Side,
    pub verdict: Verdict,
}

// "u wins at 0", "f lost"
impl fmt::Display for Said {
    ghost output = { λ x. Some (verdict_text x.side x.verdict) };

    fn fmt<W: fmt::Write>(&self, f: &mut fmt::Formatter<W>) -> fmt::Result {
        let side = self.side;
        match self.verdict {
            Verdict::WinsAt(place) => write!(f, "{side} wins at {place}"),
            Verdict::Lost => write!(f, "{side} lost"),
        }
    }
}

// How many rooms a board has.
#[derive(Clone, Copy)]
pub struct RoomCount(pub usize);

// "rooms 2"
impl fmt::Display for RoomCount {
    ghost output = { λ x. Some (rooms_text x.0) };

    fn fmt<W: fmt::Write>(&self, f: &mut fmt::Formatter<W>) -> fmt::Result {
        let count = self.0;
        write!(f, "rooms {count}")
    }
}

// A room by its number and its first square.
#[derive(Clone, Copy)]
pub struct RoomPlace {
    pub number: usize,
    pub first: u16,
}

// "room 1 at 3"
impl fmt::Display for RoomPlace {
    ghost output = { λ x. Some (room_text x.number x.first) };

    fn fmt<W: fmt::Write>(&self, f: &mut fmt::Formatter<W>) -> fmt::Result {
        let number = self.number;
        let first = self.first;
        write!(f, "room {number} at {first}")
    }
}
