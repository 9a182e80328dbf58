// What is true of all libraries' texts.
ghost use Rattle.library_text.specs.Laws.{LibraryTextsApart, OneLibraryFault, LibraryTextsAreFaultless};

use cert_text::cert_laws;
use sfen_text::sfen_laws;

/// Laws about libraries: no text is read as two, none that is read has a fault, and none has two
/// first faults. Does nothing; whoever reads such texts calls it to know this. Takes no memory.
pub fn library_laws()
    ensures texts { LibraryTextsApart }
    // No text has two first faults, and what is read has none.
    ensures one_fault { OneLibraryFault }
    ensures faultless { LibraryTextsAreFaultless }
{
    // No text is two positions' or two certificates'.
    sfen_laws();
    cert_laws();
}
