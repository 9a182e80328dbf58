// What is true of all certificates' texts.
ghost use Rattle.cert_text.specs.Laws.{CertTextsApart, OneCertificateFault, CertTextsAreFaultless};

use sfen_text::sfen_laws;
use usi_text::move_laws;

/// Laws about certificates: no two that can be read have one text, which has no fault, and no text
/// has two first faults. Does nothing; whoever reads texts that hold certificates calls it to know
/// this. Takes no memory.
pub fn cert_laws()
    ensures texts { CertTextsApart }
    // No text has two first faults, and a certificate's has none.
    ensures one_fault { OneCertificateFault }
    ensures faultless { CertTextsAreFaultless }
{
    // No two positions, and no two moves, have one text.
    sfen_laws();
    move_laws();
}
