// A run of `check --collection`.
ghost use Rattle.std.specs.Prelude.{◌≡◌, ◌↔◌, ◌⊎◌, ℕ, List, Some};
ghost use Rattle.cert_text.specs.declared.head.Claim.{Claim};
ghost use Rattle.collection_text.specs.Told.{told_lines};
ghost use Rattle.tsume_io.specs.Faults.{Rose};
ghost use Rattle.one_run.specs.Outside.{shown};
ghost use Rattle.one_run.specs.Run.{IsAnswered, IsBrokenOff, IsRun, WantsMemory};
ghost use Rattle.one_run.specs.Stops.{Signals, AreUnused};
ghost use Rattle.cmd_certificates.specs.Answer.{AreJudged};
ghost use Rattle.cmd_certificates.specs.Headline.{AcceptsAt, HasBytesLeft, IsValidAt};
ghost use Rattle.cmd_certificates.specs.Judged.{JudgedView};
ghost use Rattle.cmd_certificates.specs.Meaning.{collection_meaning};

use crate::asked::OfCollection;
use crate::judging::answer;
use crate::{CollectionJudgement, NoFault};
use cert_check::verdict_laws;
use cmd_check::Check;
use one_run::{Ended, read, tell};
use std::alloc::Global;
use std::thread::Threads;
use tsume_io::{Sink, Source};

// Reads the text, answers it and tells the answer.
fn check_through<R: Threads + Sync, S: Source, K: Sink>(
    rt: &R,
    alloc: Global,
    asked: &Check,
    source: &mut S,
    sink: &mut K,
) -> Ended<CollectionJudgement, NoFault>
    ensures { (stops : Signals) → AreUnused stops → IsRun collection_meaning stops
        (shown S.left S.faults source.old source.new)
        (shown K.kept K.faults sink.old sink.new) result }
{
    let command = OfCollection;
    let input = match read(alloc, &command, source) {
        Ok(input) => input,
        Err(ended) => return ended,
    };
    let answer = answer(rt, alloc, asked.workers, &input);
    tell(alloc, &command, input, answer, sink)
}

/// Checks the certificates in what the source gives, which `collection --certificates` printed, of
/// at most [`MOST_CERTIFICATE_BYTES`](cmd_check::MOST_CERTIFICATE_BYTES); parts of it may stand one
/// behind the other. For each line that tells a verdict
/// ([`ToldLines`](collection_text::ToldLines)), in their order, it writes to the sink the line's
/// number, as it is written there, and behind it whether the certificate behind the line is valid
/// for its own problem, as of [`check`](cmd_check::check), or the first reason why it isn't; or
/// the first fault of its text, which is `bad head` also where it claims another verdict than the
/// line tells, or has a line in front. All other lines are passed by. Last comes how many lines
/// tell a verdict, and how many of their certificates were accepted, refused and faults. A long one
/// is read and checked by as many workers as are asked for, or as there are processors, 32 at most.
/// Errors: a text that is too long; a source or a sink that failed; want of memory.
pub fn check_collection<R: Threads + Sync, S: Source, K: Sink>(
    rt: &R,
    alloc: Global,
    asked: &Check,
    source: &mut S,
    sink: &mut K,
) -> Ended<CollectionJudgement, NoFault>
    // In plain words. Where it wasn't broken off, it accepts the certificate of the line at this
    // place, among those that tell a verdict, exactly where behind that line stands the text of a
    // certificate that claims what the line tells, lists so many positions, is valid for its own
    // problem, and shows what it claims.
    ensures accepted { (input : List ℕ) (place : ℕ) (number : List ℕ) (claim : Claim) (entries : ℕ)
        → S.left source.old ≡ Some input → ¬ IsBrokenOff result
        → (AcceptsAt result place number claim entries
        ↔ IsValidAt input place number claim entries) }

    // The number of workers changes no byte: where it wasn't broken off, it ends with whatever
    // judgements are true of the bytes, and there are none but these.
    ensures same { (input : List ℕ) (judged : List JudgedView) → S.left source.old ≡ Some input
        → ¬ IsBrokenOff result → AreJudged (told_lines input) judged
        → result ≡ Ended.Answered judged }

    // In full: what it means by an answer and by each fault; no stop is used; the counts of faults
    // rise only where the run ends for it.
    ensures run { (stops : Signals) → AreUnused stops → IsRun collection_meaning stops
        (shown S.left S.faults source.old source.new)
        (shown K.kept K.faults sink.old sink.new) result }

    // Any text, told by the source and not too long, is answered, unless the outside fails or
    // memory is wanted.
    ensures complete { HasBytesLeft (S.left source.old)
        → ¬ Rose (S.faults source.old) (S.faults source.new)
        → ¬ Rose (K.faults sink.old) (K.faults sink.new) → IsAnswered result ⊎ WantsMemory result }
{
    // No certificate has two verdicts for one problem.
    verdict_laws();
    check_through(rt, alloc, asked, source, sink)
}
