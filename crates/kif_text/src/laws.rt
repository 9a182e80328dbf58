// What is true of all texts.
ghost use Rattle.kif_text.specs.Reading.{OneReadingOutcome};

use board_core::build_laws;

/// A law about KIF texts: no input has two outcomes, be they positions or first faults. Does
/// nothing; whoever speaks of what an input stands for calls it to know this. Takes no memory.
pub fn kif_laws()
    ensures outcomes { OneReadingOutcome }
{
    // One fault of a position comes first.
    build_laws();
}
