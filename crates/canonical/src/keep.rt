// What is kept of the options of a game when the reversible ones are replaced.
ghost use Rattle.std.specs.Prelude.{◌<◌, length, IfOk, OnOk};
ghost use Rattle.games.specs.Order.{NotWorse};
ghost use Rattle.board.specs.Values.{side_of};
ghost use Rattle.forms.specs.Values.{game_of};
ghost use Rattle.canonical.specs.Compares.{game_given};
ghost use Rattle.canonical.specs.Reducing.{Fit, Passed, Bypassed};

use crate::given::Given;
use crate::rising::insert;
use board::side::Side;
use std::alloc::{AllocError, Global};

impl Given<'_> {
    // The forms that serve for the options of a side in the game, none of them reversible in it.
    pub fn bypass(&self, heap: Global, side: Side) -> Result<Vec<u16>, AllocError>
        ensures { IfOk result (λ v. Bypassed self.now.forms.forms self.now.forms.options (side_of side) (game_given self.now) v.items) }
    {
        let mut chosen = Vec::new(heap);
        let own = self.of(side);
        for x in own {
            self.keep(side, *x, &mut chosen)?;
        }
        Ok(chosen)
    }

    // Keeps form x in a row, or, where it is reversible, what follows the reply.
    fn keep(&self, side: Side, x: u16, chosen: &mut Vec<u16>) -> Result<(), AllocError>
        requires known { x < length self.now.forms.forms }
        requires allowed { NotWorse (side_of side) (game_given self.now) (game_of self.now.forms x) }
        requires fit { Fit self.now.forms.forms self.now.forms.options (side_of side) (game_given self.now) chosen.old.items }
        ensures { OnOk result (Passed self.now.forms.forms self.now.forms.options (side_of side) (game_given self.now) chosen.old.items x chosen.new.items) }
    {
        let Some(y) = self.reply(side, x) else {
            return insert(chosen, x);
        };
        let after = self.row(side, y);
        for z in after {
            self.keep(side, *z, chosen)?;
        }
        Ok(())
    }
}
