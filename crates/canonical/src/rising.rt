// Rows of numbers that rise.
ghost use Rattle.std.specs.Prelude.{OnOk};
ghost use Rattle.forms.specs.Rows.{Rising};
ghost use Rattle.canonical.specs.Reducing.{Inserted};

use std::alloc::AllocError;

// Puts a number into a rising row, if the row does not have it.
pub fn insert(row: &mut Vec<u16>, x: u16) -> Result<(), AllocError>
    requires rising { Rising row.old.items }
    ensures { OnOk result (Inserted row.old.items x row.new.items) }
{
    if let Err(at) = row.as_slice().binary_search(&x) {
        row.insert(at, x)?;
    }
    Ok(())
}
