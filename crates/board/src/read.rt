// Reading a board, or a record, from bytes: a width, a height, the letter of the side to move, the squares; in a record the planks' places follow.
ghost use Rattle.std.specs.Prelude.{◌≡◌, ◌+◌, ◌*◌, ◌<◌, ◌≤◌, IsTrue, true, false, [], ◌∷◌, map, length, take, Some, None, MatchOption, MatchResult};
ghost use Rattle.board.specs.Reading.{sized, is_free, is_square_byte, bad_at, first_failed, head_checks, squares_check, asked, Headed, Set, told, file_read, board_read, record_read, places_in};
ghost use Rattle.board.specs.Values.{side_of, grid_of};

use crate::board::Board;
use crate::refusal::Refusal;
use crate::side::Side;

// A board to judge, and the side to move on it.
#[derive(Clone, Copy)]
pub struct Setup {
    pub board: Board,
    pub side: Side,
}

// The first three bytes of a file.
#[derive(Clone, Copy)]
struct Head {
    width: u8,
    height: u8,
    side: Side,
}

impl Head {
    // How many squares they ask for.
    fn size(&self) -> usize
        ensures { result ≡ self.now.width * self.now.height }
    {
        self.width as usize * self.height as usize
    }
}

// A width or a height is 1 to 16.
fn extent(byte: u8) -> Option<u8>
    ensures { MatchOption result (sized byte ≡ false) (λ n. (sized byte ≡ true) × (n ≡ byte)) }
{
    (1..=16).contains(&byte).then_some(byte)
}

// The checks of the first three bytes, in their order.
fn read_head(bytes: &[u8]) -> Result<Head, Refusal>
    ensures { MatchResult result (λ x. Headed bytes.now x.width x.height (side_of x.side)) (λ e. first_failed (head_checks bytes.now) ≡ Some e) }
{
    let short = Refusal::Length(bytes.len());
    if bytes.is_empty() {
        return Err(short);
    }
    let Some(width) = extent(bytes[0]) else {
        return Err(Refusal::Width);
    };
    if bytes.len() < 2 {
        return Err(short);
    }
    let Some(height) = extent(bytes[1]) else {
        return Err(Refusal::Height);
    };
    if bytes.len() < 3 {
        return Err(short);
    }
    let Ok(side) = Side::try_from(bytes[2]) else {
        return Err(Refusal::Letter);
    };
    Ok(Head {
        width,
        height,
        side,
    })
}

// A free square is written . and a taken one #.
fn is_square(c: u8) -> bool
    ensures { result ≡ is_square_byte c }
{
    matches!(c, b'.' | b'#')
}

// Where the first byte stands that is no square.
fn first_bad(squares: &[u8]) -> Option<usize>
    ensures { MatchOption result (bad_at squares.now ≡ length squares.now) (λ i. (i ≡ bad_at squares.now) × (i < length squares.now)) }
{
    squares.iter().position(|c| !is_square(*c))
}

// Which of the squares are free.
fn cells(squares: &[u8]) -> [bool; 256]
    requires { length squares.now ≤ 256 }
    ensures { take (length squares.now) result ≡ map is_free squares.now }
{
    let mut free = [false; 256];
    for (i, c) in squares.iter().enumerate() {
        free[i] = *c == b'.';
    }
    free
}

// The check of the squares of a file whose first bytes and length are right.
fn read_squares(head: Head, bytes: &[u8]) -> Result<Setup, Refusal>
    requires headed { Headed bytes.now head.width head.height (side_of head.side) }
    requires bytes_in_bounds { asked bytes.now + 3 ≤ length bytes.now }
    ensures { MatchResult result (λ x. Set bytes.now (side_of x.side) (grid_of x.board)) (λ e. first_failed (squares_check bytes.now ∷ []) ≡ Some e) }
{
    let squares = &bytes[3..3 + head.size()];
    if let Some(i) = first_bad(squares) {
        return Err(Refusal::Square(3 + i));
    }
    let board = Board {
        width: head.width,
        height: head.height,
        free: cells(squares),
    };
    Ok(Setup {
        board,
        side: head.side,
    })
}

// The checks that follow those of the first three bytes: that the file is as long as it should be, which `long` says, and the squares.
fn read_rest(head: Head, bytes: &[u8], long: bool) -> Result<Setup, Refusal>
    requires headed { Headed bytes.now head.width head.height (side_of head.side) }
    requires bytes_in_bounds { IsTrue long → asked bytes.now + 3 ≤ length bytes.now }
    ensures { told result ≡ file_read long bytes.now }
{
    if !long {
        return Err(Refusal::Length(bytes.len()));
    }
    read_squares(head, bytes)
}

// The board that a file holds, exactly, or the first refusal of the list that applies.
pub fn read_board(bytes: &[u8]) -> Result<Setup, Refusal>
    ensures { told result ≡ board_read bytes.now }
{
    let head = read_head(bytes)?;
    read_rest(head, bytes, bytes.len() - 3 == head.size())
}

// The board that a record begins with, or the first refusal of the list that applies.
pub fn read_record(bytes: &[u8]) -> Result<Setup, Refusal>
    ensures { told result ≡ record_read bytes.now }
{
    let head = read_head(bytes)?;
    read_rest(head, bytes, bytes.len() - 3 >= head.size())
}

// The places of a record's planks: the bytes that follow its squares.
pub fn places(bytes: &[u8]) -> &[u8]
    ensures { result.now ≡ places_in bytes.now }
{
    if bytes.len() < 2 {
        return &[];
    }
    let from = 3 + bytes[0] as usize * bytes[1] as usize;
    if bytes.len() < from {
        return &[];
    }
    &bytes[from..]
}
