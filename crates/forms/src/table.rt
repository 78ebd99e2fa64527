// The table in lent memory: begun, looked up in, and grown. Forms whose rows fall into one bucket are linked, each to the one before it.
ghost use Rattle.std.specs.Prelude.{◌≡◌, ℕ, ◌+◌, ◌%◌, ◌<◌, ◌≤◌, true, false, length, take, drop, Decides, slice_index_or};
ghost use Rattle.forms.specs.Rows.{blank};
ghost use Rattle.forms.specs.Links.{mixed, bucket_of, Table as Holds};
ghost use Rattle.forms.specs.Growth.{IsRow, Found, Fresh, Started, Begun};
ghost use Rattle.forms.specs.Values.{IsTable, in_use, SameRows, Stays, BegunIn};

use crate::rows::{BLANK, Form, Forms, Rows};
use board::side::Side;
use std::marker::Model;

// A table: two lent rows, one for forms and one for their options, and how many forms are in use.
#[derive(Drop)]
pub struct Table<'a> {
    pub forms: &'a mut [Form],
    pub options: &'a mut [u16],
    pub used: u16,
}

impl<'a> Model for Table<'a> {
    ghost use Rattle.forms.specs.Held.{Lent};

    ghost Value = { Lent };

    ghost use Rattle.forms.specs.Links.{Table as Holds};

    ghost view = { λ t. record { forms = t.forms; options = t.options; used = t.used } };

    ghost invariant = { λ t. Holds t.forms.now t.options.now t.used };
}

impl<'a> Table<'a> {
    // A table of one form, the empty game, in these rows; None where none can be begun in them, and `start` then leaves them as they were.
    pub fn new(forms: &'a mut [Form], options: &'a mut [u16]) -> Option<Table<'a>>
        ensures { BegunIn forms.entry options.entry result }
    {
        let used = start(forms, options)?;
        Some(Table {
            forms,
            options,
            used,
        })
    }

    // The forms in use, to be read.
    pub fn in_use(&self) -> Forms<'_>
        ensures forms { result.forms ≡ in_use self.now }
        ensures options { result.options ≡ self.now.options.now }
        ensures table { IsTable self.now }
    {
        Forms {
            forms: &self.forms[..self.used as usize],
            options: &*self.options,
        }
    }

    // The form in use that has these two rows, or None where no form has them.
    pub fn find(&self, rows: Rows) -> Option<u16>
        ensures { Found (in_use self.now) self.now.options.now rows.entry.upright.now rows.entry.flat.now result }
    {
        find(self.forms, self.options, self.used, rows)
    }

    // Adds a form with these two rows as the next one, and gives its number.
    pub fn add(&mut self, rows: Rows) -> u16
        requires room { self.old.used < length self.old.forms.now }
        requires fresh { Fresh (in_use self.old) self.old.options.now rows.upright.now rows.flat.now }
        ensures number { result ≡ self.old.used }
        ensures used { self.new.used ≡ self.old.used + 1 }
        ensures row { IsRow (in_use self.new) self.new.options.now rows.entry.upright.now rows.entry.flat.now result }
        ensures stays { Stays self.old self.new }
    {
        let k = self.used;
        let n = k as usize;
        let place = &mut self.options[32 * n..32 * n + 32];
        write_row(place, rows);
        let bucket = bucket(self.forms.len(), rows);
        let next = self.forms[bucket].head;
        self.forms[bucket].head = Some(k);
        let head = self.forms[n].head;
        self.forms[n] = Form {
            upright: rows.upright.len() as u8,
            flat: rows.flat.len() as u8,
            head,
            next,
        };
        self.used = k + 1;
        k
    }

    // Begins the table anew: with form 0, the empty game, alone.
    pub fn clear(&mut self)
        ensures table { IsTable self.new }
        ensures used { self.new.used ≡ 1 }
        ensures same { SameRows self.old self.new }
    {
        self.used = begin(self.forms);
    }
}

// The form in use that has these two rows, or None where no form has them. The rows that hold the table are only read.
pub fn find(forms: &[Form], options: &[u16], used: u16, rows: Rows) -> Option<u16>
    requires { Holds forms.now options.now used }
    ensures { Found (take used forms.now) options.now rows.entry.upright.now rows.entry.flat.now result }
{
    let in_use = Forms {
        forms: &forms[..used as usize],
        options,
    };
    let mut link = forms[bucket(forms.len(), rows)].head;
    // a walk along the links of a bucket, which stand in the forms themselves
    while let Some(k) = link {
        if is_row(&in_use, k, rows) {
            return Some(k);
        }
        link = forms[k as usize].next;
    }
    None
}

// Does form k have these two rows.
fn is_row(forms: &Forms, k: u16, rows: Rows) -> bool
    requires { k < length forms.now.forms }
    ensures { Decides result (IsRow forms.now.forms forms.now.options rows.entry.upright.now rows.entry.flat.now k) }
{
    let held = Rows {
        upright: forms.row(Side::Upright, k),
        flat: forms.row(Side::Flat, k),
    };
    held == rows
}

// The bucket of two rows.
fn bucket(size: usize, rows: Rows) -> usize
    requires { 0 < size }
    ensures value { result ≡ bucket_of size rows.entry.upright.now rows.entry.flat.now }
    ensures bound { result < size }
{
    let start = (rows.upright.len() % 65521) as u32;
    mix(mix(start, rows.upright), rows.flat) as usize % size
}

// A row mixed into a number.
fn mix(start: u32, row: &[u16]) -> u32
    requires { start < 65521 }
    ensures value { result ≡ mixed start row.now }
    ensures bound { result < 65521 }
{
    row.iter()
        .fold(start, |sum, x| (sum * 40503 + *x as u32 + 1) % 65521)
}

// Writes two rows into the 32 places of a form.
fn write_row(place: &mut [u16], rows: Rows)
    requires long { length place.old ≡ 32 }
    requires few_upright { length rows.upright.now ≤ 16 }
    requires few_flat { length rows.flat.now ≤ 16 }
    ensures upright { take (length rows.entry.upright.now) place.new ≡ rows.entry.upright.now }
    ensures flat { take (length rows.entry.flat.now) (drop 16 place.new) ≡ rows.entry.flat.now }
{
    place[..rows.upright.len()].copy_from_slice(rows.upright);
    place[16..16 + rows.flat.len()].copy_from_slice(rows.flat);
}

// Begins a table in these rows, which are not yet one, with form 0, the empty game, alone. None where there is no place for it, where there are too many, or where the options
// of them all have no room.
pub fn start(forms: &mut [Form], options: &[u16]) -> Option<u16>
    ensures { Started forms.old options.now forms.new result }
{
    if forms.is_empty() || forms.len() > 16384 || options.len() < 32 * forms.len() {
        return None;
    }
    Some(begin(forms))
}

// Empties all forms and links, and begins with form 0, the empty game: how many forms are in use then.
fn begin(forms: &mut [Form]) -> u16
    requires some { 0 < length forms.old }
    requires few { length forms.old ≤ 16384 }
    ensures { Begun forms.new result }
{
    forms.fill(BLANK);
    let none = Rows {
        upright: &[],
        flat: &[],
    };
    let bucket = bucket(forms.len(), none);
    forms[bucket].head = Some(0);
    1
}
