// What may be laid on a board, and the board after it.
ghost use Rattle.std.specs.Prelude.{◌≡◌, ◌≤◌, length};
ghost use Rattle.board.specs.Grid.{free, free_count};
ghost use Rattle.board.specs.Moves.{each_free, without, may};
ghost use Rattle.board.specs.Values.{side_of, grid_of, Covered, LaidAt};

use crate::board::Board;
use crate::side::Side;

impl Board {
    // How many squares the board has.
    pub fn size(&self) -> u16
        ensures value { result ≡ length (grid_of self.now).cells }
        ensures bound { result ≤ 256 }
    {
        self.width as u16 * self.height as u16
    }

    // Is this a free square of the board.
    pub fn is_free(&self, square: u16) -> bool
        ensures { result ≡ free (grid_of self.now) square }
    {
        square < self.size() && self.free[square as usize]
    }

    // May this side lay at this place.
    pub fn may(&self, side: Side, place: u16) -> bool
        ensures { result ≡ may (grid_of self.now) (side_of side) place }
    {
        self.covers(side, place).map_or(
            false,
            |squares|
                ensures { result ≡ each_free (grid_of self.entry.now) squares }
            { self.all_free(&squares) },
        )
    }

    // The board after this side has laid at this place, or None where it may not.
    pub fn lay(&self, side: Side, place: u16) -> Option<Board>
        ensures { LaidAt (grid_of self.now) (side_of side) place result }
    {
        let squares = self
            .covers(side, place)
            .filter(|squares| self.all_free(squares))?;
        Some(self.without(&squares))
    }

    // The squares that a move covers, or None where it would leave the board or its row.
    pub fn covers(&self, side: Side, place: u16) -> Option<[u16; 2]>
        ensures { Covered (grid_of self.now) (side_of side) place result }
    {
        let size = self.size();
        if place >= size {
            return None;
        }
        let width = self.width as u16;
        let (last, in_row) = match side {
            Side::Upright => (place + width, true),
            Side::Flat => (place + 1, place % width + 1 < width),
        };
        if !in_row || last >= size {
            return None;
        }
        Some([place, last])
    }

    // Are all of these squares free.
    fn all_free(&self, squares: &[u16]) -> bool
        ensures { result ≡ each_free (grid_of self.now) squares.now }
    {
        squares.iter().all(|q| self.is_free(*q))
    }

    // The board with these squares taken.
    fn without(&self, squares: &[u16]) -> Board
        ensures { grid_of result ≡ without (grid_of self.now) squares.now }
    {
        let mut free = self.free;
        for q in squares {
            let at = *q as usize;
            if at < free.len() {
                free[at] = false;
            }
        }
        Board {
            width: self.width,
            height: self.height,
            free,
        }
    }

    // How many squares are free.
    pub fn count_free(&self) -> u16
        ensures { result ≡ free_count (grid_of self.now).cells }
    {
        (0..self.size()).filter(|p| self.is_free(*p)).count() as u16
    }
}
