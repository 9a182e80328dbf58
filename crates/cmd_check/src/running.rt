// A run of `check`.
ghost use Rattle.std.specs.Prelude.{◌≡◌, ◌↔◌, ◌⊎◌, ℕ, List, Some};
ghost use Rattle.cert_text.specs.declared.head.Claim.{Claim};
ghost use Rattle.tsume_io.specs.Faults.{Rose};
ghost use Rattle.one_run.specs.Outside.{shown};
ghost use Rattle.one_run.specs.Run.{IsAnswered, IsBrokenOff, IsRun, WantsMemory};
ghost use Rattle.one_run.specs.Stops.{Signals, AreUnused};
ghost use Rattle.cmd_check.specs.Answer.{IsJudged};
ghost use Rattle.cmd_check.specs.Asked.{IsProblemInWords, check_in};
ghost use Rattle.cmd_check.specs.Headline.{HasCertificateLeft, IsValidText};
ghost use Rattle.cmd_check.specs.Meaning.{check_meaning};

use crate::Check;
use crate::judgement::answer;
use app_texts::Judgement;
use cert_check::verdict_laws;
use cert_text::CertFault;
use one_run::{Ended, read, tell};
use problem_answers::problem_laws;
use shogi_rules::Problem;
use std::alloc::Global;
use std::thread::Threads;
use tsume_io::{Sink, Source};

// Reads the text, answers it and tells the answer.
fn check_through<R: Threads + Sync, S: Source, K: Sink>(
    rt: &R,
    alloc: Global,
    asked: &Check,
    problem: &Option<Problem>,
    source: &mut S,
    sink: &mut K,
) -> Ended<Judgement, CertFault>
    requires { IsProblemInWords (check_in asked.now) problem.now }
    ensures { (stops : Signals) → AreUnused stops → IsRun (check_meaning (check_in asked.now)) stops
        (shown S.left S.faults source.old source.new)
        (shown K.kept K.faults sink.old sink.new) result }
{
    let input = match read(alloc, asked, source) {
        Ok(input) => input,
        Err(ended) => return ended,
    };
    let answer = answer(rt, alloc, problem, asked.workers, &input);
    tell(alloc, asked, input, answer, sink)
}

/// Checks the certificate of the text that the source gives, of at most
/// [`MOST_CERTIFICATE_BYTES`](crate::MOST_CERTIFICATE_BYTES), perhaps behind the line of the USI
/// answer: writes to the sink whether it is valid for its own problem, or for the one that the
/// words give, which was accepted ([`asked_problem`](crate::asked_problem)), or the first reason
/// why it isn't. A certificate of another problem isn't valid for it. Positions are compared, and
/// not texts. The entries are checked side by side, by as many workers as are asked for, but no
/// more than processors, nor than 32 ([`check_wide`](wide_check::check_wide)). Errors: a text that
/// is no certificate, with its first fault, or is too long; a source or a sink that failed; want of
/// memory.
pub fn check<R: Threads + Sync, S: Source, K: Sink>(
    rt: &R,
    alloc: Global,
    asked: &Check,
    problem: &Option<Problem>,
    source: &mut S,
    sink: &mut K,
) -> Ended<Judgement, CertFault>
    requires { IsProblemInWords (check_in asked.now) problem.now }
    // In plain words. Where it wasn't broken off, it accepts exactly where the bytes are the text
    // of a certificate that is valid for the problem whose text the words give, or for its own
    // where they give none, with its claim and the number of its entries.
    ensures accepted { (input : List ℕ) (claim : Claim) (entries : ℕ)
        → S.left source.old ≡ Some input → ¬ IsBrokenOff result
        → ((result ≡ Ended.Answered (Judgement.Accepted claim entries))
        ↔ IsValidText (check_in asked.now) input claim entries) }

    // The number of workers changes no byte: where it wasn't broken off, it ends with whatever
    // judgement is true of the bytes, for this problem, and there is one at most.
    ensures same { (input : List ℕ) (judgement : Judgement) → S.left source.old ≡ Some input
        → ¬ IsBrokenOff result → IsJudged (check_in asked.now) input judgement
        → result ≡ Ended.Answered judgement }

    // In full: what it means by an answer and by each fault; no stop is used; the counts of faults
    // rise only where the run ends for it.
    ensures run { (stops : Signals) → AreUnused stops
        → IsRun (check_meaning (check_in asked.now)) stops
        (shown S.left S.faults source.old source.new)
        (shown K.kept K.faults sink.old sink.new) result }

    // The text of a certificate, told by the source and not too long, is answered, unless the
    // outside fails or memory is wanted.
    ensures complete { HasCertificateLeft (S.left source.old)
        → ¬ Rose (S.faults source.old) (S.faults source.new)
        → ¬ Rose (K.faults sink.old) (K.faults sink.new) → IsAnswered result ⊎ WantsMemory result }
{
    // No text stands for two problems, and no certificate has two verdicts for one.
    problem_laws();
    verdict_laws();
    check_through(rt, alloc, asked, problem, source, sink)
}
