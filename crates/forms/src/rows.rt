// Forms and their rows of options. Form k has 32 places in the options: from 32 k on for the player of upright planks, from 32 k + 16 on for the
// player of flat ones.
ghost use Rattle.std.specs.Prelude.{◌≡◌, ◌<◌, length};
ghost use Rattle.board.specs.Values.{side_of};
ghost use Rattle.forms.specs.Rows.{row_of, row_for};
ghost use Rattle.forms.specs.Soundness.{Sound};
ghost use Rattle.forms.specs.Values.{IsSound};

use board::side::Side;
use std::marker::Model;

// How many options a form has for each player, and its links: the last form of the bucket with this number, and the form before this one in its
// own bucket.
#[derive(Clone, Copy, Drop)]
pub struct Form {
    pub upright: u8,
    pub flat: u8,
    pub head: Option<u16>,
    pub next: Option<u16>,
}

// A place of a table in which no form stands yet.
pub const BLANK: Form = Form {
    upright: 0,
    flat: 0,
    head: None,
    next: None,
};

// The options of form k for a side. They are lent from the options alone.
pub fn row<'a>(forms: &[Form], options: &'a [u16], side: Side, k: u16) -> &'a [u16]
    requires sound { Sound forms.now options.now }
    requires known { k < length forms.now }
    ensures { result.now ≡ row_of forms.now options.now (side_of side) k }
{
    let form = forms[k as usize];
    let start = 32 * k as usize;
    match side {
        Side::Upright => &options[start..start + form.upright as usize],
        Side::Flat => &options[start + 16..start + 16 + form.flat as usize],
    }
}

// Sound forms to be read, and the memory in which their options stand.
#[derive(Drop)]
pub struct Forms<'a> {
    pub forms: &'a [Form],
    pub options: &'a [u16],
}

impl<'a> Model for Forms<'a> {
    ghost use Rattle.forms.specs.Held.{Read};

    ghost Value = { Read };

    ghost use Rattle.forms.specs.Soundness.{Sound};

    ghost view = { λ f. record { forms = f.forms.now; options = f.options.now } };

    ghost invariant = { λ f. Sound f.forms.now f.options.now };
}

impl<'a> Forms<'a> {
    // The options of form k for a side.
    pub fn row(&self, side: Side, k: u16) -> &'a [u16]
        requires { k < length self.now.forms }
        ensures row { result.now ≡ row_of self.now.forms self.now.options (side_of side) k }
        ensures sound { IsSound self.now }
    {
        row(self.forms, self.options, side, k)
    }
}

// Two rows of forms, which give a game: what each player may make of it.
#[derive(Clone, Copy, PartialEq)]
pub struct Rows<'a> {
    pub upright: &'a [u16],
    pub flat: &'a [u16],
}

impl<'a> Rows<'a> {
    // The row of a side.
    pub fn of(self, side: Side) -> &'a [u16]
        ensures { result.now ≡ row_for (side_of side) self.entry.upright.now self.entry.flat.now }
    {
        match side {
            Side::Upright => self.upright,
            Side::Flat => self.flat,
        }
    }
}
