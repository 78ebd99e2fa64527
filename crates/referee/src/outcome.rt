// How a game stands, and the line that tells it.
ghost use Rattle.std.specs.Prelude.{Some};
ghost use Rattle.referee.specs.Lines.{outcome_text};

use board::side::Side;
use std::fmt;
use verdict::verdict::Said;

#[derive(Clone, Copy)]
pub enum Outcome {
    // the game is over: this side made the last move
    LastMove(Side),
    // the game is open: the verdict for the side to move
    Open(Said),
}

// "f made the last move", or the verdict's line
impl fmt::Display for Outcome {
    ghost output = { λ x. Some (outcome_text x) };

    fn fmt<W: fmt::Write>(&self, f: &mut fmt::Formatter<W>) -> fmt::Result {
        match self {
            Outcome::LastMove(side) => write!(f, "{side} made the last move"),
            Outcome::Open(said) => write!(f, "{said}"),
        }
    }
}
