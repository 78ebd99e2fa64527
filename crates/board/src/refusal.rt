// Why a board or a record is refused: the list's numbers, each with its place.
ghost use Rattle.std.specs.Prelude.{◌≡◌, Some};
ghost use Rattle.board.specs.Refusals.{number_of, place_of, refused_text};

use std::fmt;

// The rows of lent memory.
#[derive(Clone, Copy, Debug, PartialEq, Eq)]
pub enum Row {
    Forms,
    Options,
    Positions,
    Pairs,
}

#[derive(Clone, Copy, Debug, PartialEq, Eq)]
pub enum Refusal {
    // 1 at 0 and at 1: a width or a height of 0 or above 16
    Width,
    Height,
    // 2: the side's letter is neither u nor f
    Letter,
    // 3: the file is not as long as its squares ask; its length
    Length(usize),
    // 4: a square that is neither . nor #; its place in the file
    Square(usize),
    // 8: a row of lent memory is too short
    Lent(Row),
    // 9: a plank of the record may not be laid; its number
    Plank(usize),
    // 5: a room has more than 16 squares; its first square
    Room(u16),
    // 6: there are more than 32 rooms; the first square of the 33rd
    Rooms(u16),
    // 7: the count is too high
    Count,
}

impl Refusal {
    // Its number in the list.
    pub fn number(self) -> u8
        ensures { result ≡ number_of self }
    {
        match self {
            Refusal::Width | Refusal::Height => 1,
            Refusal::Letter => 2,
            Refusal::Length(_) => 3,
            Refusal::Square(_) => 4,
            Refusal::Room(_) => 5,
            Refusal::Rooms(_) => 6,
            Refusal::Count => 7,
            Refusal::Lent(_) => 8,
            Refusal::Plank(_) => 9,
        }
    }

    // The place that it speaks of.
    pub fn place(self) -> usize
        ensures { result ≡ place_of self }
    {
        match self {
            Refusal::Width | Refusal::Count | Refusal::Lent(Row::Forms) => 0,
            Refusal::Height | Refusal::Lent(Row::Options) => 1,
            Refusal::Letter | Refusal::Lent(Row::Positions) => 2,
            Refusal::Lent(Row::Pairs) => 3,
            Refusal::Length(n) => n,
            Refusal::Square(n) => n,
            Refusal::Plank(n) => n,
            Refusal::Room(p) => p as usize,
            Refusal::Rooms(p) => p as usize,
        }
    }
}

// "refused 5 at 3"
impl fmt::Display for Refusal {
    ghost output = { λ e. Some (refused_text e) };

    fn fmt<W: fmt::Write>(&self, f: &mut fmt::Formatter<W>) -> fmt::Result {
        let number = self.number();
        let place = self.place();
        write!(f, "refused {number} at {place}")
    }
}
