// What is proved of the rules themselves. Each function's contract is a theorem.
ghost use Rattle.board.specs.Known.{KnownBoards};
ghost use Rattle.board.specs.Rules.{OneAnswer, OneOutcome};

// The side to move wins or has lost, never both; and for every side and board one answer fits, and no other.
pub fn rules_stand()
    ensures outcome { OneOutcome }
    ensures answer { OneAnswer }
{}

// The table of known boards is what the rules say.
pub fn known_boards_stand()
    ensures { KnownBoards }
{}
