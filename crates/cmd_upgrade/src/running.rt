// A run of `upgrade`.
ghost use Rattle.std.specs.Prelude.{◌≡◌, ◌⊎◌, ℕ, List, Some};
ghost use Rattle.cert_text.specs.declared.certificate.Certificate.{Certificate};
ghost use Rattle.tsume_io.specs.Faults.{Rose};
ghost use Rattle.one_run.specs.Outside.{shown};
ghost use Rattle.one_run.specs.Run.{IsAnswered, IsBrokenOff, IsRun, WantsMemory};
ghost use Rattle.one_run.specs.Stops.{Signals, AreUnused};
ghost use Rattle.cmd_check.specs.Headline.{HasCertificateLeft};
ghost use Rattle.cmd_upgrade.specs.Headline.{EndsUpgraded, IsUpgradedFrom, IsValidForItsOwn};
ghost use Rattle.cmd_upgrade.specs.Meaning.{upgrade_meaning};

use crate::judging::answer;
use crate::{Upgrade, UpgradeAnswer};
use cert_text::CertFault;
use one_run::{Ended, read, tell};
use std::alloc::Global;
use tsume_io::{Sink, Source};

// Reads the text, answers it and tells the answer.
fn upgrade_through<S: Source, K: Sink>(
    alloc: Global,
    asked: &Upgrade,
    source: &mut S,
    sink: &mut K,
) -> Ended<UpgradeAnswer, CertFault>
    ensures { (stops : Signals) → AreUnused stops → IsRun upgrade_meaning stops
        (shown S.left S.faults source.old source.new)
        (shown K.kept K.faults sink.old sink.new) result }
{
    let input = match read(alloc, asked, source) {
        Ok(input) => input,
        Err(ended) => return ended,
    };
    let answer = answer(alloc, &input);
    tell(alloc, asked, input, answer, sink)
}

/// Writes the certificate that the source gives, in at most
/// [`MOST_CERTIFICATE_BYTES`](cmd_check::MOST_CERTIFICATE_BYTES), perhaps behind the line of the
/// USI answer, in version 2: the same claim, problem and entries
/// ([`upgrade`](cert_check::upgrade)). It is checked for its own problem first; where it isn't
/// valid the first reason is written, as [`check`](cert_check::check) gives it. One of version 2
/// comes out as it is. Errors: a text that is no certificate, with its first fault, or is too long;
/// a source or a sink that failed; want of memory.
pub fn upgrade<S: Source, K: Sink>(
    alloc: Global,
    asked: &Upgrade,
    source: &mut S,
    sink: &mut K,
) -> Ended<UpgradeAnswer, CertFault>
    // In plain words. Where it writes a certificate, the bytes are the text of one that is valid
    // for its own problem; what is written is the same in version 2, which is valid for that
    // problem too, shows what it claims, and can be read.
    ensures upgraded { (input : List ℕ) (found : Certificate) → S.left source.old ≡ Some input
        → result ≡ Ended.Answered (UpgradeAnswer.Upgraded found) → IsUpgradedFrom input found }

    // The text of a certificate that is valid for its own problem gets it in version 2, unless the
    // run is broken off.
    ensures valid { (input : List ℕ) → S.left source.old ≡ Some input → ¬ IsBrokenOff result
        → IsValidForItsOwn input → EndsUpgraded result }

    // In full: what it means by an answer and by each fault; no stop is used; the counts of faults
    // rise only where the run ends for it.
    ensures run { (stops : Signals) → AreUnused stops → IsRun upgrade_meaning stops
        (shown S.left S.faults source.old source.new)
        (shown K.kept K.faults sink.old sink.new) result }

    // The text of a certificate, told by the source and not too long, is answered, unless the
    // outside fails or memory is wanted.
    ensures complete { HasCertificateLeft (S.left source.old)
        → ¬ Rose (S.faults source.old) (S.faults source.new)
        → ¬ Rose (K.faults sink.old) (K.faults sink.new) → IsAnswered result ⊎ WantsMemory result }
{
    upgrade_through(alloc, asked, source, sink)
}
