// Judging a board.
ghost use Rattle.board.specs.Values.{side_of, grid_of};
ghost use Rattle.verdict.specs.Judging.{Judged, JudgedFile, OneJudgement, OneFileJudgement};

use crate::verdict::{Said, Verdict};
use board::board::Board;
use board::read::read_board;
use board::refusal::Refusal;
use board::side::Side;
use rooms::find::judged_rooms;
use rooms::list::Rooms;
use search::first_win;

// More free squares than this are not played out.
const MOST_FREE: u16 = 20;

// The rooms of a board, and what is said of it for the side to move.
#[derive(Clone, Copy)]
pub struct Judgement {
    pub rooms: Rooms,
    pub said: Said,
}

// The rooms and the verdict for the side to move, or the first refusal of the list that applies.
pub fn judge(board: &Board, side: Side) -> Result<Judgement, Refusal>
    ensures { Judged (side_of side) (grid_of board.now) result }
{
    let rooms = judged_rooms(board)?;
    if board.count_free() > MOST_FREE {
        return Err(Refusal::Count);
    }
    let verdict = Verdict::from(first_win(board, side));
    Ok(Judgement {
        rooms,
        said: Said { side, verdict },
    })
}

// The same for the board that a file holds.
pub fn judge_file(bytes: &[u8]) -> Result<Judgement, Refusal>
    ensures { JudgedFile bytes.now result }
{
    let setup = read_board(bytes)?;
    judge(&setup.board, setup.side)
}

// Nothing else fits: two answers that meet the contract of judge, or of judge_file, tell the same.
pub fn judgement_stands()
    ensures board { OneJudgement }
    ensures file { OneFileJudgement }
{}
