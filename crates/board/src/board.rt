// The board as the program holds it: at most 16 by 16 squares, by value.
ghost use Rattle.std.specs.Prelude.{◌≡◌, ◌*◌, ◌≤◌, length};

#[derive(Clone, Copy)]
pub struct Board {
    pub(crate) width: u8,
    pub(crate) height: u8,
    // free[p] for each square p below width * height, in reading order; what lies behind them is not read
    pub(crate) free: [bool; 256],
    ghost wide: { (1 ≤ width) × (width ≤ 16) },
    ghost high: { (1 ≤ height) × (height ≤ 16) },
    ghost few: { width * height ≤ 256 },
}
