// What is proved of rooms. Each function's contract is a theorem.
ghost use Rattle.rooms.specs.Games.{RoomsLaw};
ghost use Rattle.rooms.specs.Laid.{LaidRooms};
ghost use Rattle.rooms.specs.Rooms.{OneList, LargerLaw};
ghost use Rattle.rooms.specs.Values.{OneFound, OneJudged};

// A board has one list of rooms; the board and those rooms beside each other are won by the same side, whoever is to move; and what a walk from a
// square finds to be larger is a room of that list that is larger. No plank makes a room larger: each room after it lies in one before it.
pub fn rooms_stand()
    ensures one { OneList }
    ensures law { RoomsLaw }
    ensures larger { LargerLaw }
    ensures laid { LaidRooms }
{}

// For a board one answer fits, and no other: the same rooms, or the same refusal.
pub fn answers_stand()
    ensures found { OneFound }
    ensures judged { OneJudged }
{}
