// What is true of all lines.
ghost use Rattle.cook_line.specs.Moves.{LinesAreFaultless, LinesAreInTurn, OneBadMove};
ghost use Rattle.cook_line.specs.Stages.{WordsMean};

use board_core::order_laws;
use usi_text::move_laws;

/// Laws about lines. A text that says a line from a problem has no part that is no move, and none
/// has two first such parts; the moves of a line are checks and evasions in turn, one at least. And
/// what the word of a line's stages means: sound, that at each turn of the attacker whose check has
/// an evasion this check mates and no other; cooked, that at one of these turns another one mates;
/// no mate, that at one of them no check does. Does nothing; whoever uses a line calls it to know
/// this. Takes no memory.
pub fn line_laws()
    ensures faultless { LinesAreFaultless }
    ensures one_fault { OneBadMove }
    ensures in_turn { LinesAreInTurn }
    ensures words { WordsMean }
{
    // No two moves have one text, or one place in their order.
    move_laws();
    order_laws();
}
