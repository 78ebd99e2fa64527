// The form of the sum of two forms: it is made of the forms of what the moves in the one or in the other make of it.
ghost use Rattle.std.specs.Prelude.{◌≡◌, ◌<◌, MatchOption, Ok, length, slice_index};
ghost use Rattle.board.specs.Values.{side_of};
ghost use Rattle.forms.specs.Rows.{row_of};
ghost use Rattle.forms.specs.Values.{IsTable, in_use};
ghost use Rattle.sums.specs.Steps.{RowKnown};
ghost use Rattle.sums.specs.Values.{SameSums, SumOf, StepOf, RowFor};

use crate::pairs::{keep, recall};
use board::side::Side;
use canonical::canonical::{Refusal, canonical};
use canonical::rising::insert;
use forms::rows::{Forms, Rows};
use forms::table::Table;
use std::alloc::Global;
use std::marker::Model;

// A table, and a lent row for what is known of the sums of pairs of its forms.
#[derive(Drop)]
pub struct Sums<'a> {
    pub table: Table<'a>,
    pub pairs: &'a mut [u32],
}

impl<'a> Model for Sums<'a> {
    ghost use Rattle.sums.specs.Held.{Adding};

    ghost Value = { Adding };

    ghost use Rattle.sums.specs.Sums.{HoldsRight};

    ghost view = { λ s. record { table = s.table; pairs = s.pairs } };

    ghost invariant = { λ s. HoldsRight s.table.forms.now s.table.options.now s.table.used s.pairs.now };
}

impl<'a> Sums<'a> {
    // A table, with nothing known of any pair.
    pub fn new(table: Table<'a>, pairs: &'a mut [u32]) -> Sums<'a>
        ensures table { result.table ≡ table.entry }
        ensures pairs { result.pairs.ghost_name ≡ pairs.entry.ghost_name }
    {
        pairs.fill(0);
        Sums { table, pairs }
    }

    // Begins the table anew, with form 0, the empty game, alone, and forgets all pairs.
    pub fn clear(&mut self)
        ensures used { self.new.table.used ≡ 1 }
        ensures same { SameSums self.old self.new }
    {
        self.table.clear();
        self.pairs.fill(0);
    }

    // The forms in use, to read.
    pub fn in_use(&self) -> Forms<'_>
        ensures forms { result.forms ≡ in_use self.now.table }
        ensures options { result.options ≡ self.now.table.options.now }
        ensures table { IsTable self.now.table }
    {
        self.table.in_use()
    }

    // The form of the sum of forms x and y. It is remembered, as far as there is room.
    #[cycle(moves_step_sum)]
    pub fn sum(&mut self, heap: Global, x: u16, y: u16) -> Result<u16, Refusal>
        requires first { x < self.old.table.used }
        requires second { y < self.old.table.used }
        ensures answer { SumOf self.old x y self.new result }
        ensures same { SameSums self.old self.new }
    {
        // a table always holds form 0
        prove!(self.table.used > 0);
        if let Some(form) = self.known(x, y) {
            return Ok(form);
        }
        let upright = self.moves(heap, Side::Upright, x, y)?;
        let flat = self.moves(heap, Side::Flat, x, y)?;
        let rows = Rows {
            upright: upright.as_slice(),
            flat: flat.as_slice(),
        };
        let form = canonical(heap, &mut self.table, rows)?;
        keep(self.pairs, x, y, form);
        Ok(form)
    }

    // The form of the sum of forms x and y, if it is remembered.
    fn known(&self, x: u16, y: u16) -> Option<u16>
        requires first { x < self.now.table.used }
        requires second { y < self.now.table.used }
        ensures { MatchOption result Unit (λ form. SumOf self.now x y self.now (Ok form)) }
    {
        // a table always holds form 0
        prove!(self.table.used > 0);
        recall(self.pairs, x, y)
    }

    // The forms of what a side's moves in x or in y make of their sum.
    #[cycle(moves_step_sum)]
    fn moves(&mut self, heap: Global, side: Side, x: u16, y: u16) -> Result<Vec<u16>, Refusal>
        requires first { x < self.old.table.used }
        requires second { y < self.old.table.used }
        ensures answer { RowFor (side_of side) x y self.old self.new result }
        ensures same { SameSums self.old self.new }
    {
        // a table always holds form 0
        prove!(self.table.used > 0);
        let mut row = Vec::new(heap);
        self.step(heap, side, x, y, &mut row)?;
        self.step(heap, side, y, x, &mut row)?;
        Ok(row)
    }

    // How many options form x has for a side.
    fn many(&self, side: Side, x: u16) -> usize
        requires { x < self.now.table.used }
        ensures { result ≡ length (row_of (in_use self.now.table) self.now.table.options.now (side_of side) x) }
    {
        self.in_use().row(side, x).len()
    }

    // Option number i of form x for a side.
    fn option(&self, side: Side, x: u16, i: usize) -> u16
        requires known { x < self.now.table.used }
        requires within { i < length (row_of (in_use self.now.table) self.now.table.options.now (side_of side) x) }
        ensures { result ≡ slice_index (row_of (in_use self.now.table) self.now.table.options.now (side_of side) x) i }
    {
        self.in_use().row(side, x)[i]
    }

    // Puts the forms of the sums of a side's options of x with y into a row. Each option is read anew, since the table grows meanwhile.
    #[cycle(moves_step_sum)]
    fn step(
        &mut self,
        heap: Global,
        side: Side,
        x: u16,
        y: u16,
        row: &mut Vec<u16>,
    ) -> Result<(), Refusal>
        requires first { x < self.old.table.used }
        requires second { y < self.old.table.used }
        requires row { RowKnown self.old.table.used row.old.items }
        ensures answer { StepOf (side_of side) x y self.old row.old.items self.new row.new.items result }
        ensures same { SameSums self.old self.new }
    {
        // a table always holds form 0
        prove!(self.table.used > 0);
        for i in 0..self.many(side, x) {
            let option = self.option(side, x, i);
            let form = self.sum(heap, option, y)?;
            insert(row, form)?;
        }
        Ok(())
    }
}
