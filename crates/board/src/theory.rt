// What is proved of boards as games. Each function's contract is a theorem.
ghost use Rattle.board.specs.Covering.{MovesLaw};
ghost use Rattle.board.specs.Play.{PlayWins, Plays};
ghost use Rattle.board.specs.Tree.{TreeLaw, TreeFuel, BoardGames};
ghost use Rattle.board.specs.Ways.{WaysLaw};

// A lawful move covers its place and at least one square more, each a neighbour of one before it, and all of them free.
pub fn moves_stand()
    ensures { MovesLaw }
{}

// The neighbours of a square are those that lie one of the four ways from it.
pub fn ways_stand()
    ensures { WaysLaw }
{}

// A board and its game are won by the same side; moves beyond the number of free squares change nothing in the game.
pub fn tree_stands()
    ensures law { TreeLaw }
    ensures fuel { TreeFuel }
{}

// Who is told a place by a judge whose answers are right, and goes on as told, makes the last lawful move, unless a board on the way is refused.
pub fn play_stands()
    ensures { PlayWins }
{}

// The games of two small boards, compared, and plays on them.
pub fn board_games_stand()
    ensures games { BoardGames }
    ensures plays { Plays }
{}
