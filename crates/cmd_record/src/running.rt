// A run of `record`.
ghost use Rattle.std.specs.Prelude.{◌≡◌, ◌⊎◌, ℕ, List, Some};
ghost use Rattle.board_core.specs.declared.moves.Move.{Move};
ghost use Rattle.shogi_rules.specs.declared.problem.Problem.{Problem};
ghost use Rattle.tsume_io.specs.Faults.{Rose};
ghost use Rattle.one_run.specs.Outside.{shown};
ghost use Rattle.one_run.specs.Run.{IsAnswered, IsBrokenOff, IsRun, WantsMemory};
ghost use Rattle.one_run.specs.Stops.{Signals, AreUnused};
ghost use Rattle.cmd_record.specs.Headline.{EndsWithRecord, HasMateLeft, IsMateText, IsTextWith};
ghost use Rattle.cmd_record.specs.Meaning.{record_meaning};

use crate::judging::answer;
use crate::{Record, RecordAnswer, RecordFault};
use one_run::{Ended, read, tell};
use std::alloc::Global;
use tsume_io::{Sink, Source};

// Reads the text, answers it and tells the answer.
fn record_through<S: Source, K: Sink>(
    alloc: Global,
    asked: &Record,
    source: &mut S,
    sink: &mut K,
) -> Ended<RecordAnswer, RecordFault>
    ensures { (stops : Signals) → AreUnused stops → IsRun record_meaning stops
        (shown S.left S.faults source.old source.new)
        (shown K.kept K.faults sink.old sink.new) result }
{
    let input = match read(alloc, asked, source) {
        Ok(input) => input,
        Err(ended) => return ended,
    };
    let answer = answer(alloc, &input);
    tell(alloc, asked, input, answer, sink)
}

/// Writes the KIF record of the mate whose certificate the source gives, in at most
/// [`MOST_CERTIFICATE_BYTES`](cmd_check::MOST_CERTIFICATE_BYTES), perhaps behind the line of the
/// USI answer: its problem's diagram and the moves of its main line
/// ([`write_kif`](kif_record::write_kif), [`main_line`](play_line::main_line)). The certificate is
/// checked for its own problem first; where it isn't valid the first reason is written, as
/// [`check`](cert_check::check) gives it. Errors: a text that is no certificate, with its first
/// fault, or is an escape's, or is too long; a source or a sink that failed; want of memory.
pub fn record<S: Source, K: Sink>(
    alloc: Global,
    asked: &Record,
    source: &mut S,
    sink: &mut K,
) -> Ended<RecordAnswer, RecordFault>
    // In plain words. Where it writes a record, the bytes are the text of a mate's certificate that
    // is valid for the problem, which so is a mate, and the moves are its main line.
    ensures recorded { (input : List ℕ) (problem : Problem) (moves : List Move)
        → S.left source.old ≡ Some input
        → result ≡ Ended.Answered (RecordAnswer.Recorded problem moves)
        → IsTextWith input problem.position moves }

    // The text of a mate's certificate that is valid for its own problem gets its record, unless
    // the run is broken off.
    ensures mates { (input : List ℕ) → S.left source.old ≡ Some input → ¬ IsBrokenOff result
        → IsMateText input → EndsWithRecord result }

    // In full: what it means by an answer and by each fault; no stop is used; the counts of faults
    // rise only where the run ends for it.
    ensures run { (stops : Signals) → AreUnused stops → IsRun record_meaning stops
        (shown S.left S.faults source.old source.new)
        (shown K.kept K.faults sink.old sink.new) result }

    // The text of a mate's certificate, told by the source and not too long, is answered, unless
    // the outside fails or memory is wanted.
    ensures complete { HasMateLeft (S.left source.old)
        → ¬ Rose (S.faults source.old) (S.faults source.new)
        → ¬ Rose (K.faults sink.old) (K.faults sink.new) → IsAnswered result ⊎ WantsMemory result }
{
    record_through(alloc, asked, source, sink)
}
