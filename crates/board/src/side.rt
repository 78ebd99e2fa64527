// The two sides: one lays upright planks, the other flat ones.
ghost use Rattle.std.specs.Prelude.{◌≡◌, [], ◌∷◌, Some};
ghost use Rattle.board.specs.Values.{side_of, letter_of};
ghost use Rattle.board.specs.Reading.{Named};
ghost use Rattle.board.specs.Grid.{other};

use std::fmt;

#[derive(Clone, Copy, Debug, PartialEq, Eq)]
pub enum Side {
    Upright,
    Flat,
}

impl Side {
    // The side that moves next.
    pub fn other(self) -> Side
        ensures { side_of result ≡ other (side_of self) }
    {
        match self {
            Side::Upright => Side::Flat,
            Side::Flat => Side::Upright,
        }
    }
}

// A letter that stands for no side.
#[derive(Clone, Copy, Debug, PartialEq, Eq)]
pub struct UnknownSide(pub u8);

// The side that a letter stands for.
impl TryFrom<u8> for Side {
    type Error = UnknownSide;

    ghost try_from_gives = { Named };

    fn try_from(letter: u8) -> Result<Side, UnknownSide> {
        match letter {
            b'u' => Ok(Side::Upright),
            b'f' => Ok(Side::Flat),
            _ => Err(UnknownSide(letter)),
        }
    }
}

// A side is written as its letter in files and in answers: u or f.
impl fmt::Display for Side {
    ghost output = { λ s. Some (letter_of s ∷ []) };

    fn fmt<W: fmt::Write>(&self, f: &mut fmt::Formatter<W>) -> fmt::Result {
        match self {
            Side::Upright => write!(f, "u"),
            Side::Flat => write!(f, "f"),
        }
    }
}
