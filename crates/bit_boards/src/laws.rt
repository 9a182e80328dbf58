// What is true of all sets of squares and of all pieces: each law is the clause of a call that does
// nothing.
ghost use Rattle.bit_boards.specs.Mask.{MasksApart, MasksOnBoard};
ghost use Rattle.bit_boards.specs.Movement.{StepsAreNear, SlidesShareLine};

/// Laws about sets of squares and about movement: sets hold nothing but squares of the board, sets
/// that hold the same squares are one, a piece steps or jumps to near squares alone, and slides to
/// squares alone that share a file, row or diagonal. Does nothing; whoever reasons about sets calls
/// it to know this. Takes no memory.
pub fn mask_laws()
    ensures on_board { MasksOnBoard }
    ensures apart { MasksApart }
    ensures steps { StepsAreNear }
    ensures slides { SlidesShareLine }
{}
