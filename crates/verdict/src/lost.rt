// Who has lost, by the form of a board.
ghost use Rattle.std.specs.Prelude.{◌<◌, length};
ghost use Rattle.board.specs.Values.{side_of};
ghost use Rattle.forms.specs.Values.{game_of};
ghost use Rattle.verdict.specs.Worths.{LostAnswer};

use board::side::Side;
use canonical::compare::worse;
use forms::rows::Forms;

// Has this side, to move on a board of this form, lost: for it the form is no better than form 0, the empty game.
pub fn has_lost(forms: &Forms, form: u16, side: Side) -> bool
    requires { form < length forms.now.forms }
    ensures { LostAnswer (side_of side) (game_of forms.now form) result }
{
    prove!((form as usize) < forms.forms.len());
    worse(forms, side, form, 0)
}
