// The sums of each form of one row and each of another.
ghost use Rattle.std.specs.Prelude.{◌<◌};
ghost use Rattle.std.specs.List.{AllByRecursion as Every};
ghost use Rattle.sums.specs.Pairing.{BesideRow, BesideRows};
ghost use Rattle.sums.specs.Values.{SameSums, SumsOf};

use crate::sum::Sums;
use canonical::canonical::Refusal;
use std::alloc::Global;

impl Sums<'_> {
    // Adds each form of one row and each of another.
    pub fn all_sums(&mut self, heap: Global, left: &[u16], right: &[u16]) -> Result<(), Refusal>
        requires first { Every (λ x. x < self.old.table.used) left.now }
        requires second { Every (λ y. y < self.old.table.used) right.now }
        ensures answer { SumsOf (BesideRows self.old.table.forms.now self.old.table.options.now self.old.table.used left.now right.now) self.old self.new result }
        ensures same { SameSums self.old self.new }
    {
        // a table always holds form 0
        prove!(self.table.used > 0);
        for x in left {
            self.sums_with(heap, *x, right)?;
        }
        Ok(())
    }

    // Adds form x and each form of a row.
    fn sums_with(&mut self, heap: Global, x: u16, row: &[u16]) -> Result<(), Refusal>
        requires first { x < self.old.table.used }
        requires second { Every (λ y. y < self.old.table.used) row.now }
        ensures answer { SumsOf (BesideRow self.old.table.forms.now self.old.table.options.now self.old.table.used x row.now) self.old self.new result }
        ensures same { SameSums self.old self.new }
    {
        // a table always holds form 0
        prove!(self.table.used > 0);
        for y in row {
            self.sum(heap, x, *y)?;
        }
        Ok(())
    }
}
