// The neighbours of a square.
ghost use Rattle.board.specs.Ways.{Lies, Neighbour};
ghost use Rattle.board.specs.Values.{grid_of};

use crate::board::Board;
use crate::ways::Way;

impl Board {
    // The free neighbour that lies this way from a square, or None where there is none.
    pub fn neighbour(&self, square: u16, way: Way) -> Option<u16>
        ensures { Neighbour (grid_of self.now) square way result }
    {
        self.beside(square, way).filter(|q| self.is_free(*q))
    }

    // The square that lies this way from another, or None where the row or the board ends.
    fn beside(&self, square: u16, way: Way) -> Option<u16>
        ensures { Lies (grid_of self.now) square way result }
    {
        let width = self.width as u16;
        match way {
            Way::Up => {
                if square < width {
                    return None;
                }
                Some(square - width)
            }
            Way::Left => {
                if square == 0 || (square - 1) % width + 1 >= width {
                    return None;
                }
                Some(square - 1)
            }
            Way::Right => {
                if square >= self.size() || square % width + 1 >= width {
                    return None;
                }
                Some(square + 1)
            }
            Way::Down => {
                if square >= self.size() {
                    return None;
                }
                Some(square + width)
            }
        }
    }
}
