// Forms compared with each other, and with a game that is given by two rows and has no form yet. The loops stay loops: with `any` and `find` the
// closure's need that each form is known did not close, and `within` calls itself.
ghost use Rattle.std.specs.Prelude.{◌≡◌, ◌<◌, length};
ghost use Rattle.board.specs.Values.{side_of};
ghost use Rattle.forms.specs.Values.{game_of};
ghost use Rattle.canonical.specs.Compares.{Tells, Reply, game_given};

use crate::given::Given;
use board::side::Side;
use forms::rows::Forms;

// Is form g no better than form h for a side.
pub fn worse(forms: &Forms, side: Side, g: u16, h: u16) -> bool
    requires first { g < length forms.now.forms }
    requires second { h < length forms.now.forms }
    ensures { Tells result (side_of side) (game_of forms.now g) (game_of forms.now h) }
{
    match side {
        Side::Upright => forms.at_most(g, h),
        Side::Flat => forms.at_most(h, g),
    }
}

impl Given<'_> {
    // Is form k no better for a side than the game.
    pub fn within(&self, side: Side, k: u16) -> bool
        requires { k < length self.now.forms.forms }
        ensures { Tells result (side_of side) (game_of self.now.forms k) (game_given self.now) }
    {
        let them = side.other();
        let own = self.row(side, k);
        for x in own {
            if self.within(them, *x) {
                return false;
            }
        }
        let replies = self.of(them);
        for y in replies {
            if worse(&self.forms, side, *y, k) {
                return false;
            }
        }
        true
    }

    // A reply of the other side to form x that is no better than the game, so that x is reversible in it.
    pub fn reply(&self, side: Side, x: u16) -> Option<u16>
        requires { x < length self.now.forms.forms }
        ensures { Reply self.now.forms.forms self.now.forms.options (side_of side) x (game_given self.now) result }
    {
        let them = side.other();
        let replies = self.row(them, x);
        for y in replies {
            if self.within(side, *y) {
                return Some(*y);
            }
        }
        None
    }
}
