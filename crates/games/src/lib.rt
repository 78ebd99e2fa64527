// Games as trees of options: play, order, sums, canonical forms and the count. Each function's contract is a theorem.
#![tactic(auto)]

ghost use Rattle.games.specs.Play.{Outcome};
ghost use Rattle.games.specs.Order.{Order, Decided, TestRight, Computed};
ghost use Rattle.games.specs.Numbers.{NumbersRise, BoundsDecide, BoundsHot, BoundsCold};
ghost use Rattle.games.specs.Sum.{SumStands, SumExists, SumEqual, SumTurns, SumGroups, SumEmpty, SumNeg};
ghost use Rattle.games.specs.Canonical.{Strike, Bypass, HasForm, OneForm, IdenticalEqual, FormReached};
ghost use Rattle.games.specs.Count.{OneSum, SumTells, OneMore, BetweenForms, OneCount, CountLeast, CountMost, NotWide};
ghost use Rattle.games.specs.Examples.{Examples};

// The order is one, and decided: of two games the one is at most the other or is not.
pub fn order_stands()
    ensures order { Order }
    ensures decided { Decided }
{}

// In every row of games the side to move makes the last move or does not, never both.
pub fn outcome_stands()
    ensures { Outcome }
{}

// Games are equal exactly if they stand for each other beside whatever games.
pub fn equality_stands()
    ensures { TestRight }
{}

// Test numbers rise. Where two games stand apart among them, this decides their order; and where a game stands follows from where its options do.
pub fn bounds_stand()
    ensures rise { NumbersRise }
    ensures decide { BoundsDecide }
    ensures hot { BoundsHot }
    ensures cold { BoundsCold }
{}

// Every two games have a sum, and a game equal to it stands for the two. The sum respects equality; the order and the grouping of its parts
// do not matter; the empty game is its zero, and the game with the players exchanged the negative.
pub fn sum_stands()
    ensures stands { SumStands }
    ensures exists { SumExists }
    ensures equal { SumEqual }
    ensures turns { SumTurns }
    ensures groups { SumGroups }
    ensures zero { SumEmpty }
    ensures negative { SumNeg }
{}

// A dominated option may be struck and a reversible one bypassed, for either side: the game stays equal.
pub fn options_stand()
    ensures strike { Strike }
    ensures bypass { Bypass }
{}

// Every game is equal to a canonical one. Canonical games that are equal are identical, and identical games are equal. What is reached from a
// canonical game is equal to something reached from any game equal to it.
pub fn form_stands()
    ensures exists { HasForm }
    ensures one { OneForm }
    ensures equal { IdenticalEqual }
    ensures reached { FormReached }
{}

// A row of games has one canonical sum; it stands for the row, and comparing it with the empty game tells who wins, whoever is to move. One more
// game brings the forms between the sum so far and the game; for those the forms of the game's positions serve as well.
pub fn row_stands()
    ensures one { OneSum }
    ensures tells { SumTells }
    ensures more { OneMore }
    ensures forms { BetweenForms }
{}

// A row of games has one count of canonical forms. A table of forms, no two equal, is no longer than the count, and one with every form no shorter.
// A form with few options for each player has no equal canonical form with many.
pub fn count_stands()
    ensures one { OneCount }
    ensures least { CountLeast }
    ensures most { CountMost }
    ensures narrow { NotWide }
{}

// A test that computes is true exactly if a game is at most another, and false exactly if it is not.
pub fn test_stands()
    ensures { Computed }
{}

// A few small games compared by that test, and a sum.
pub fn examples()
    ensures { Examples }
{}
