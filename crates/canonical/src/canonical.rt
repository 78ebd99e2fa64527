// The canonical form of a game that is given by two rows of forms, found in the table or added to it.
ghost use Rattle.std.specs.Prelude.{◌≡◌, IfOk};
ghost use Rattle.board.specs.Values.{side_of};
ghost use Rattle.forms.specs.Values.{IsTable, Stays, in_use, game_from};
ghost use Rattle.canonical.specs.Compares.{BothKnown, game_given};
ghost use Rattle.canonical.specs.Reducing.{Reduced, Reduction};
ghost use Rattle.canonical.specs.Answers.{Outcome};

use crate::given::Given;
use crate::thin::thin;
use board::side::Side;
use forms::rows::Rows;
use forms::table::Table;
use std::alloc::{AllocError, AllocFailed, Global};

// Why a game has no form here: the table is full, the form has more than 16 options for a player, or memory is wanting.
#[derive(Clone, Copy, Drop)]
pub enum Refusal {
    Full,
    Wide,
    NoMemory,
}

// Memory that is wanting, as a refusal.
impl From<AllocError> for Refusal {
    ghost use Rattle.canonical.specs.declared.canonical.Refusal.TheVariants.{NoMemory};

    ghost from_gives = { λ _ e. e ≡ NoMemory };

    fn from(_: AllocError) -> Refusal {
        Refusal::NoMemory
    }
}

impl<T: Drop> From<AllocFailed<T>> for Refusal {
    ghost use Rattle.canonical.specs.declared.canonical.Refusal.TheVariants.{NoMemory};

    ghost from_gives = { λ _ e. e ≡ NoMemory };

    fn from(e: AllocFailed<T>) -> Refusal {
        AllocError::from(e).into()
    }
}

// The canonical form of the game that two rows of forms give.
pub fn canonical(heap: Global, table: &mut Table, rows: Rows) -> Result<u16, Refusal>
    requires { BothKnown (in_use table.old) rows.upright.now rows.flat.now }
    ensures answer { Outcome table.old table.new (game_from table.old rows.entry) result }
    ensures stays { Stays table.old table.new }
{
    let given = Given {
        forms: table.in_use(),
        rows,
    };
    let upright = given.reduce(heap, Side::Upright)?;
    let flat = given.reduce(heap, Side::Flat)?;
    let reduced = Rows {
        upright: upright.as_slice(),
        flat: flat.as_slice(),
    };
    place(table, reduced)
}

impl Given<'_> {
    // The options of a side in the canonical form of the game.
    fn reduce(&self, heap: Global, side: Side) -> Result<Vec<u16>, AllocError>
        ensures { IfOk result (λ v. Reduced self.now.forms.forms self.now.forms.options (side_of side) (game_given self.now) v.items) }
    {
        let firm = self.bypass(heap, side)?;
        thin(heap, &self.forms, side, firm.as_slice())
    }
}

// The form with these rows, which are those of a canonical game.
fn place(table: &mut Table, rows: Rows) -> Result<u16, Refusal>
    requires table { IsTable table.old }
    requires reduced { Reduction (in_use table.old) table.old.options.now rows.upright.now rows.flat.now }
    ensures answer { Outcome table.old table.new (game_from table.old rows.entry) result }
    ensures stays { Stays table.old table.new }
{
    if rows.upright.len() > 16 || rows.flat.len() > 16 {
        return Err(Refusal::Wide);
    }
    if let Some(form) = table.find(rows) {
        return Ok(form);
    }
    if table.used as usize == table.forms.len() {
        return Err(Refusal::Full);
    }
    Ok(table.add(rows))
}
