// What is true of the texts of all moves.
ghost use Rattle.usi_text.specs.MoveText.{MoveTextsApart};

use board_core::value_laws;

/// A law: no two moves have one text (USI protocol: moves). Does nothing; whoever reads texts that
/// hold moves calls it to know this. Takes no memory.
pub fn move_laws()
    ensures { MoveTextsApart }
{
    // No two squares have one number, and no two kinds one letter.
    value_laws();
}
