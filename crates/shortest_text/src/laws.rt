// What is true of all texts about the shortest mate.
ghost use Rattle.shortest_text.specs.Laws.{ShortestTextsApart, OneShortestFault, ShortestTextsAreFaultless};

use bound_text::bound_laws;
use cert_text::cert_laws;
use sfen_text::sfen_laws;

/// Laws about texts that tell the shortest mate: no text is read as two, none that is read has a
/// fault, and none has two first faults. Does nothing; whoever reads such texts calls it to know
/// this. Takes no memory.
pub fn shortest_laws()
    ensures texts { ShortestTextsApart }
    // No text has two first faults, and what is read has none.
    ensures one_fault { OneShortestFault }
    ensures faultless { ShortestTextsAreFaultless }
{
    // No text is two positions', two certificates' or two bounds'.
    sfen_laws();
    cert_laws();
    bound_laws();
}
