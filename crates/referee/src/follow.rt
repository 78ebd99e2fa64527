// Following a record: the planks are laid in turn, and the board that they lead to is judged.
ghost use Rattle.std.specs.Prelude.{◌≡◌, ℕ, true, MatchBool};
ghost use Rattle.board.specs.Moves.{may};
ghost use Rattle.board.specs.Rules.{Stuck};
ghost use Rattle.board.specs.Values.{side_of, grid_of};
ghost use Rattle.referee.specs.Following.{played, played_by, Ended, Followed, OneFollowing};

use crate::outcome::Outcome;
use board::board::Board;
use board::read::{Setup, places, read_record};
use board::refusal::Refusal;
use board::side::Side;
use verdict::judge::judge;

// How the game stands that this record holds, or the first refusal of the list that applies.
pub fn follow(bytes: &[u8]) -> Result<Outcome, Refusal>
    ensures { Followed bytes.now result }
{
    let start = read_record(bytes)?;
    let end = play(start, places(bytes))?;
    standing(&end.board, end.side)
}

// Nothing else fits: two answers that meet the contract of follow are the same.
pub fn following_stands()
    ensures { OneFollowing }
{}

// The board after planks at these places, laid in turn, or which of them is the first that may not be laid.
fn play(start: Setup, places: &[u8]) -> Result<Setup, Refusal>
    ensures { played_by result ≡ played 0 (side_of start.side) (grid_of start.board) places.now }
{
    let mut board = start.board;
    let mut side = start.side;
    for (i, place) in places.iter().enumerate() {
        let next = board.lay(side, *place as u16);
        board = next.ok_or(Refusal::Plank(i))?;
        side = side.other();
    }
    Ok(Setup { board, side })
}

// Who made the last move, where the side to move may lay nowhere; else the verdict.
fn standing(board: &Board, side: Side) -> Result<Outcome, Refusal>
    ensures { Ended (side_of side) (grid_of board.now) result }
{
    if !can_lay(board, side) {
        return Ok(Outcome::LastMove(side.other()));
    }
    let judgement = judge(board, side)?;
    Ok(Outcome::Open(judgement.said))
}

// May this side lay anywhere.
fn can_lay(board: &Board, side: Side) -> bool
    ensures { MatchBool result (Stuck (side_of side) (grid_of board.now) → ⊥) (Stuck (side_of side) (grid_of board.now)) }
{
    (0..board.size()).any(|place| board.may(side, place))
}
