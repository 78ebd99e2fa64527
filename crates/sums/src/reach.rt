// The forms that are reached from a form. Options are below the form that has them, so one pass downwards finds all.
ghost use Rattle.std.specs.Prelude.{◌<◌, ◌≤◌, length, IfOk};
ghost use Rattle.std.specs.List.{AllByRecursion as Every};
ghost use Rattle.sums.specs.Reaching.{MarksRow, ListsMarked, Reaches};

use board::side::Side;
use forms::rows::Forms;
use std::alloc::{AllocError, Global};

// All forms that are reached from form t over options of either player, t itself among them, rising.
pub fn reached(heap: Global, forms: &Forms, t: u16) -> Result<Vec<u16>, AllocError>
    requires few { length forms.now.forms ≤ 16384 }
    requires known { t < length forms.now.forms }
    ensures { IfOk result (λ v. Reaches forms.now.forms forms.now.options t v.items) }
{
    prove!((t as usize) < forms.forms.len());
    let mut held = Vec::from_elem(heap, false, t as usize + 1)?;
    let marks = held.as_mut_slice();
    marks[t as usize] = true;
    for k in (0..t + 1).rev() {
        if !marks[k as usize] {
            continue;
        }
        mark(marks, forms.row(Side::Upright, k));
        mark(marks, forms.row(Side::Flat, k));
    }
    marked(heap, marks)
}

// Marks the numbers of a row.
fn mark(marks: &mut [bool], row: &[u16])
    requires { Every (λ x. x < length marks.old) row.now }
    ensures { MarksRow marks.old row.now marks.new }
{
    for x in row {
        marks[*x as usize] = true;
    }
}

// The marked numbers, rising.
fn marked(heap: Global, marks: &[bool]) -> Result<Vec<u16>, AllocError>
    requires { length marks.now ≤ 65536 }
    ensures { IfOk result (λ v. ListsMarked marks.now v.items) }
{
    let mut row = Vec::new(heap);
    for (i, mark) in marks.iter().enumerate() {
        if !*mark {
            continue;
        }
        row.push(i as u16)?;
    }
    Ok(row)
}
