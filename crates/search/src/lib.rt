// The rules played out in every way: slow, small and right.
#![tactic(auto)]

ghost use Rattle.board.specs.Rules.{Says};
ghost use Rattle.board.specs.Values.{side_of, grid_of};
ghost use Rattle.search.specs.Answers.{answer_of};

use board::board::Board;
use board::side::Side;

// The first place in reading order after which the other side has lost, or None where the side to move has lost.
// Every way to play on is tried, so the time doubles with each few free squares; at 20 of them it took well under a second on the boards that were tried.
pub fn first_win(board: &Board, side: Side) -> Option<u16>
    ensures { Says (side_of side) (grid_of board.now) (answer_of result) }
{
    // a loop, since a closure that calls back into the search would need clauses of its own
    for place in 0..board.size() {
        let Some(next) = board.lay(side, place) else {
            continue;
        };
        if first_win(&next, side.other()).is_none() {
            return Some(place);
        }
    }
    None
}
