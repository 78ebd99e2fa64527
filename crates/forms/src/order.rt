// The test of order, and its contrary. The two functions call each other, and the sum of the two numbers falls; they go through the options by loops,
// since a closure in a cycle of calls would need a measure of its own.
ghost use Rattle.std.specs.Prelude.{◌<◌, length, MatchBool};
ghost use Rattle.games.specs.Order.{Le, NotLe};
ghost use Rattle.forms.specs.Values.{game_of};
ghost use Rattle.forms.specs.Laws.{OneNumber, FirstEmpty};

use crate::rows::Forms;
use board::side::Side;

impl Forms<'_> {
    // Is form g at most form h: no upright option of g has h at most it, and no flat option of h is at most g.
    #[cycle(at_most_not_at_most)]
    pub fn at_most(&self, g: u16, h: u16) -> bool
        requires first { g < length self.now.forms }
        requires second { h < length self.now.forms }
        ensures { MatchBool result (Le (game_of self.now g) (game_of self.now h)) (NotLe (game_of self.now g) (game_of self.now h)) }
    {
        let uprights = self.row(Side::Upright, g);
        for x in uprights {
            if !self.not_at_most(h, *x) {
                return false;
            }
        }
        let flats = self.row(Side::Flat, h);
        for y in flats {
            if !self.not_at_most(*y, g) {
                return false;
            }
        }
        true
    }

    // Is form g not at most form h: h is at most some upright option of g, or some flat option of h is at most g.
    #[cycle(at_most_not_at_most)]
    pub fn not_at_most(&self, g: u16, h: u16) -> bool
        requires first { g < length self.now.forms }
        requires second { h < length self.now.forms }
        ensures { MatchBool result (NotLe (game_of self.now g) (game_of self.now h)) (Le (game_of self.now g) (game_of self.now h)) }
    {
        let own = self.row(Side::Upright, g);
        for x in own {
            if self.at_most(h, *x) {
                return true;
            }
        }
        let replies = self.row(Side::Flat, h);
        for y in replies {
            if self.at_most(*y, g) {
                return true;
            }
        }
        false
    }
}

// In a sound table two forms are equal exactly if they are the same number, and form 0 is the empty game.
pub fn numbers_stand()
    ensures one { OneNumber }
    ensures first { FirstEmpty }
{}
