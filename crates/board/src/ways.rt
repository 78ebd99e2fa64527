// The ways from a square to its neighbours.
#[derive(Clone, Copy, Debug, PartialEq, Eq)]
pub enum Way {
    Up,
    Left,
    Right,
    Down,
}

// All four.
pub const WAYS: [Way; 4] = [Way::Up, Way::Left, Way::Right, Way::Down];
