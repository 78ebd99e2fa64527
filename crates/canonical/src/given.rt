// A game that two rows of forms give, and that has no form yet.
ghost use Rattle.std.specs.Prelude.{◌≡◌, ◌<◌, length};
ghost use Rattle.board.specs.Values.{side_of};
ghost use Rattle.forms.specs.Rows.{row_of, row_for};
ghost use Rattle.forms.specs.Values.{IsSound};
ghost use Rattle.canonical.specs.Compares.{AllKnown};

use board::side::Side;
use forms::rows::{Forms, Rows};
use std::marker::Model;

// Forms to be read, and two rows of them.
#[derive(Drop)]
pub struct Given<'a> {
    pub forms: Forms<'a>,
    pub rows: Rows<'a>,
}

impl<'a> Model for Given<'a> {
    ghost use Rattle.canonical.specs.Held.{Two};

    ghost Value = { Two };

    ghost use Rattle.canonical.specs.Compares.{BothKnown};

    ghost view = { λ g. record { forms = g.forms; rows = g.rows } };

    ghost invariant = { λ g. BothKnown g.forms.forms g.rows.upright.now g.rows.flat.now };
}

impl<'a> Given<'a> {
    // The options of form k for a side.
    pub fn row(&self, side: Side, k: u16) -> &'a [u16]
        requires { k < length self.now.forms.forms }
        ensures row { result.now ≡ row_of self.now.forms.forms self.now.forms.options (side_of side) k }
        ensures sound { IsSound self.now.forms }
    {
        self.forms.row(side, k)
    }

    // The options that the game has for a side.
    pub fn of(&self, side: Side) -> &'a [u16]
        ensures row { result.now ≡ row_for (side_of side) self.now.rows.upright.now self.now.rows.flat.now }
        ensures known { AllKnown self.now }
    {
        self.rows.of(side)
    }
}
