// What is true of all texts with moves.
ghost use Rattle.kif_moves.specs.Reading.{KifMovesApart, OneKifMovesFault, KifMovesAreFaultless};

use board_core::value_laws;
use kif_text::kif_laws;

/// Laws about KIF texts with moves: no text stands for two problems or two lists of moves, none has
/// two first faults, and none that stands for a problem and moves has a fault. Does nothing;
/// whoever speaks of what a text stands for calls it to know this. Takes no memory.
pub fn kif_moves_laws()
    ensures texts { KifMovesApart }
    ensures one_fault { OneKifMovesFault }
    ensures faultless { KifMovesAreFaultless }
{
    // No text has two diagrams, and no two squares have one number.
    kif_laws();
    value_laws();
}
