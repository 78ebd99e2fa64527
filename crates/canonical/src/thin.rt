// A row of forms without those that another of them dominates.
ghost use Rattle.std.specs.Prelude.{◌<◌, length, IfOk};
ghost use Rattle.board.specs.Values.{side_of};
ghost use Rattle.forms.specs.Rows.{Rising};
ghost use Rattle.forms.specs.Soundness.{Known};
ghost use Rattle.forms.specs.Values.{IsSound};
ghost use Rattle.canonical.specs.Compares.{Dominated};
ghost use Rattle.canonical.specs.Reducing.{Thinned};

use crate::compare::worse;
use board::side::Side;
use forms::rows::Forms;
use std::alloc::{AllocError, Global};

// The forms of a rising row that no other form of it dominates for a side.
pub fn thin(heap: Global, forms: &Forms, side: Side, row: &[u16]) -> Result<Vec<u16>, AllocError>
    requires known { Known forms.now.forms row.now }
    requires rising { Rising row.now }
    ensures { IfOk result (λ v. Thinned forms.now.forms forms.now.options (side_of side) row.now v.items) }
{
    let mut best = Vec::new(heap);
    for (i, x) in row.iter().enumerate() {
        let before = best.as_slice();
        if is_dominated(forms, side, *x, before) {
            continue;
        }
        let after = &row[i + 1..];
        if is_dominated(forms, side, *x, after) {
            continue;
        }
        best.push(*x)?;
    }
    Ok(best)
}

// Is form x no better for a side than some form of a row. A loop, since with `any` the closure's need that each form is known did not close.
fn is_dominated(forms: &Forms, side: Side, x: u16, row: &[u16]) -> bool
    requires first { x < length forms.now.forms }
    requires known { Known forms.now.forms row.now }
    ensures { Dominated forms.now.forms forms.now.options (side_of side) x row.now result }
{
    for y in row {
        if worse(forms, side, x, *y) {
            return true;
        }
    }
    false
}
