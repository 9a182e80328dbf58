// What is true of all bounds' texts.
ghost use Rattle.bound_text.specs.Laws.{BoundTextsApart, OneBoundFault, BoundTextsAreFaultless};

use sfen_text::sfen_laws;

/// Laws about bounds: no two that can be read for one problem have one text, which has no fault,
/// and in no text two lines are the first that is wrong. Does nothing; whoever reads texts that
/// hold bounds calls it to know this. Takes no memory.
pub fn bound_laws()
    ensures texts { BoundTextsApart }
    // No text has two first faults, and a bound's has none.
    ensures one_fault { OneBoundFault }
    ensures faultless { BoundTextsAreFaultless }
{
    // No two positions have one text.
    sfen_laws();
}
