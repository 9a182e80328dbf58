// What is true of the texts of all positions.
ghost use Rattle.sfen_text.specs.Laws.{PositionTextsApart, TextsHaveBytes, TextsAreLines, OnePositionSpelled, OneReadingOutcome};

use board_core::{build_laws, value_laws};

/// Laws about the texts of positions: no two positions have one, none is empty, and each is one
/// line of bytes from the space on (SFEN); no input spells two positions, and none has two
/// outcomes. Does nothing; whoever reads texts that hold positions calls it to know this. Takes no
/// memory.
pub fn sfen_laws()
    ensures apart { PositionTextsApart }
    ensures bytes { TextsHaveBytes }
    ensures lines { TextsAreLines }
    ensures spelled { OnePositionSpelled }
    ensures outcomes { OneReadingOutcome }
{
    // The kinds that can stand in a hand have the first places, and one fault of a position comes
    // first.
    value_laws();
    build_laws();
}
