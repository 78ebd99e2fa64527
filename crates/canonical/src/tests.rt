// Small games by hand: each line gives two rows of forms, and the number of the form that they come to.
ghost use Rattle.std.specs.Prelude.{◌≡◌, ◌<◌, true};
ghost use Rattle.std.specs.List.{AllByRecursion as Every};

use crate::canonical::canonical;
use forms::rows::{BLANK, Form, Rows};
use forms::table::Table;
use std::alloc::Global;
use std::process::Abort;
use std::test::Fail;

#[derive(Clone, Copy)]
struct Case {
    upright: &'static [u16],
    flat: &'static [u16],
    form: u16,
}

const CASES: [Case; 11] = [
    // the empty game, one, minus one
    Case {
        upright: &[],
        flat: &[],
        form: 0,
    },
    Case {
        upright: &[0],
        flat: &[],
        form: 1,
    },
    Case {
        upright: &[],
        flat: &[0],
        form: 2,
    },
    // one half, star
    Case {
        upright: &[0],
        flat: &[1],
        form: 3,
    },
    Case {
        upright: &[0],
        flat: &[0],
        form: 4,
    },
    // plus-minus one, the two-by-two board's
    Case {
        upright: &[1],
        flat: &[2],
        form: 5,
    },
    // for the flat player 0 dominates 1: star by another way
    Case {
        upright: &[0],
        flat: &[0, 1],
        form: 4,
    },
    // star is reversible through 0, which has no options: it vanishes
    Case {
        upright: &[4],
        flat: &[],
        form: 0,
    },
    // up and star; and a form with that as the reply
    Case {
        upright: &[0, 4],
        flat: &[0],
        form: 6,
    },
    Case {
        upright: &[1],
        flat: &[6],
        form: 7,
    },
    // it is reversible, and brings 0 and star, of which star is reversible again
    Case {
        upright: &[7],
        flat: &[],
        form: 1,
    },
];

// Begins a table and asks for the form of every case.
fn run(rt: &impl Abort, heap: Global, forms: &mut [Form], options: &mut [u16]) -> Result<(), Fail> {
    let Some(mut table) = Table::new(forms, options) else {
        return Err(Fail::new("no room for a table"));
    };
    for case in CASES {
        let rows = Rows {
            upright: case.upright,
            flat: case.flat,
        };
        assert_eq!(rt; place(heap, &mut table, rows)?, case.form);
    }
    assert_eq!(rt; table.used, 8);
    Ok(())
}

// The form of the game with these rows, if they name forms in use.
fn place(heap: Global, table: &mut Table, rows: Rows) -> Result<u16, Fail> {
    if !are_below(rows.upright, table.used) || !are_below(rows.flat, table.used) {
        return Err(Fail::new("no such form"));
    }
    match canonical(heap, table, rows) {
        Ok(form) => Ok(form),
        Err(_) => Err(Fail::new("refused")),
    }
}

// Are all numbers of a row below a bound.
fn are_below(row: &[u16], bound: u16) -> bool
    ensures { result ≡ true → Every (λ x. x < bound) row.now }
{
    row.iter().all(|x| *x < bound)
}

#[test]
fn small_games(rt: HostRuntime) -> Result<(), Fail> {
    let mut forms = [BLANK; 16];
    let mut options = [0; 512];
    run(&rt, rt.alloc(), &mut forms, &mut options)
}
