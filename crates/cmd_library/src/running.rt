// A run of `solve --library`.
ghost use Rattle.std.specs.Prelude.{◌≡◌, ◌<◌, ◌≤◌, ◌↔◌, ◌⊎◌, ℕ, List, Some, length};
ghost use Rattle.board_core.specs.declared.moves.Move.{Move};
ghost use Rattle.cert_text.specs.Certificate.{Mating, Escaping};
ghost use Rattle.library_check.specs.declared.refused.Refused.{Refused};
ghost use Rattle.search_limits.specs.declared.cause.Cause.{Cause};
ghost use Rattle.visit_log.specs.Run.{WorkerView};
ghost use Rattle.tsume_io.specs.Faults.{Rose};
ghost use Rattle.app_texts.specs.declared.answer.Solution.{Solution};
ghost use Rattle.one_run.specs.Outside.{shown};
ghost use Rattle.one_run.specs.Run.{IsEnded, IsBrokenOff, IsCounted, IsAnswered, IsRun, WantsMemory};
ghost use Rattle.one_run.specs.Stops.{once_armed, signals};
ghost use Rattle.cmd_solve.specs.Asked.{solve_in};
ghost use Rattle.cmd_solve.specs.Headline.{NamesMate, NamesNoMate};
ghost use Rattle.cmd_library.specs.Answer.{HasRefused};
ghost use Rattle.cmd_library.specs.Headline.{AreUsedFor, HasLibraryLeft, IsKnownText, IsLibraryRun, IsUnknownWith, IsVerdictWith, LineStandsForMate, LineStandsForNoMate};
ghost use Rattle.cmd_library.specs.Meaning.{library_meaning};

use crate::asked::WithLibrary;
use crate::solution::{answer, answer_alone};
use crate::{LibraryAnswer, LibraryTextFault};
use app_texts::Solution;
use cert_check::verdict_laws;
use cmd_solve::Solve;
use library_text::library_laws;
use one_run::{Ended, read, tell};
use problem_answers::problem_laws;
use search_gate::{Gate, Stop};
use std::alloc::Global;
use std::sync::Wait;
use std::thread::Threads;
use tsume_io::{Sink, Source};

// Reads the text, answers it by one worker, and tells the answer.
fn alone_through<S: Source, K: Sink, G: Gate, T: Stop>(
    alloc: Global,
    asked: &Solve,
    source: &mut S,
    sink: &mut K,
    gate: &G,
    stops: &mut [T],
) -> Ended<LibraryAnswer, LibraryTextFault>
    requires alone { asked.now.settings.workers ≡ 1 }
    requires stops { 0 < length stops.old }
    ensures { IsRun (library_meaning (solve_in asked.now))
        (signals T.signal stops.old stops.new)
        (shown S.left S.faults source.old source.new)
        (shown K.kept K.faults sink.old sink.new) result }
{
    let with = WithLibrary { asked };
    let input = match read(alloc, &with, source) {
        Ok(input) => input,
        Err(ended) => return ended,
    };
    let answer = answer_alone(alloc, asked, &input, gate, stops);
    tell(alloc, &with, input, answer, sink)
}

// Reads the text, answers it by all workers, and tells the answer.
fn library_through<
    R: Threads + Wait + AllocGlobal + Sync,
    S: Source,
    K: Sink,
    G: Gate,
    T: Stop + Drop,
>(
    rt: &R,
    asked: &Solve,
    source: &mut S,
    sink: &mut K,
    gate: &G,
    stops: &mut Vec<T>,
) -> Ended<LibraryAnswer, LibraryTextFault>
    requires { asked.now.settings.workers ≤ length stops.old.items }
    ensures { IsRun (library_meaning (solve_in asked.now))
        (signals T.signal stops.old.items stops.new.items)
        (shown S.left S.faults source.old source.new)
        (shown K.kept K.faults sink.old sink.new) result }
{
    let alloc = rt.alloc();
    let with = WithLibrary { asked };
    let input = match read(alloc, &with, source) {
        Ok(input) => input,
        Err(ended) => return ended,
    };
    let answer = answer(rt, asked, &input, gate, stops);
    tell(alloc, &with, input, answer, sink)
}

/// Solves a problem from a library. The source gives the problem's line, up to the first line feed,
/// which is read as [`solve`](cmd_solve::solve) reads a text, and behind it a library
/// ([`read_library`](library_text::read_library)), in all at most
/// [`MOST_LIBRARY_BYTES`](crate::MOST_LIBRARY_BYTES). Each certificate is checked for its own
/// problem, one after the other, and the first that is refused is the answer. Else the problem is
/// searched, as `solve` searches it, from what those certificates list whose problem has its side
/// to move, in their order; what the others say isn't used (of several workers no clause says it).
/// Writes `solve`'s answer to the sink, or the refused certificate's line. Errors: a line that is
/// no problem, or no library behind it, with the first fault; a text that is too long; a source or
/// a sink that failed; want of memory. The gate is passed for each visit of a position, as the
/// worker that visits it (no clause says it). (The tsume rule; USI protocol: `checkmate`.)
pub fn solve_with_library<
    R: Threads + Wait + AllocGlobal + Sync,
    S: Source,
    K: Sink,
    G: Gate,
    T: Stop + Drop,
>(
    rt: &R,
    asked: &Solve,
    source: &mut S,
    sink: &mut K,
    gate: &G,
    stops: &mut Vec<T>,
) -> Ended<LibraryAnswer, LibraryTextFault>
    // There is a stop for each worker.
    requires { asked.now.settings.workers ≤ length stops.old.items }
    // In plain words. Where it ended with a mate, the first line of the bytes that the source had
    // left stands for a problem that is a mate, the certificate is valid for it and can be read,
    // and the moves are its main line.
    ensures mate { (input : List ℕ) (c : Mating) (moves : List Move)
        → S.left source.old ≡ Some input
        → result ≡ Ended.Answered (LibraryAnswer.Solved (Solution.Mate c moves))
        → LineStandsForMate asked.now.form input c moves }

    // Where it ended with no mate, the problem is none, and the certificate is valid for it and can
    // be read.
    ensures no_mate { (input : List ℕ) (c : Escaping) → S.left source.old ≡ Some input
        → result ≡ Ended.Answered (LibraryAnswer.Solved (Solution.NoMate c))
        → LineStandsForNoMate asked.now.form input c }

    // Where neither is told, the library is valid, and one of the stated limits was used up in a
    // search that began from its notes, or a worker's stop signalled; or the note that was found
    // has more positions than a certificate is read with.
    ensures gave_up { (input : List ℕ) (cause : Cause) (crew : List WorkerView)
        → S.left source.old ≡ Some input
        → result ≡ Ended.Answered (LibraryAnswer.Solved (Solution.Unknown cause crew))
        → IsUnknownWith asked.now.form (solve_in asked.now).settings
        (once_armed (solve_in asked.now).watch.deadline
        (signals T.signal stops.old.items stops.new.items)) input cause crew }

    // Where it wasn't broken off, it refuses a certificate exactly where it is the library's first
    // that isn't valid for its own problem, and for the first reason against it.
    ensures refused { (input : List ℕ) (refused : Refused) → S.left source.old ≡ Some input
        → ¬ IsBrokenOff result
        → ((result ≡ Ended.Answered (LibraryAnswer.Refused refused))
        ↔ HasRefused asked.now.form input refused) }

    // A problem that a certificate lists whose problem has its side to move, or that a note of the
    // library is about or may be carried to, isn't given up: whatever the limits, it is answered by
    // the verdict of a note.
    ensures known { (input : List ℕ) (solution : Solution) → S.left source.old ≡ Some input
        → IsKnownText asked.now.form input
        → result ≡ Ended.Answered (LibraryAnswer.Solved solution)
        → IsVerdictWith asked.now.form (solve_in asked.now).settings
        (once_armed (solve_in asked.now).watch.deadline
        (signals T.signal stops.old.items stops.new.items)) input solution }

    // Whatever the source tells of its bytes, as a file tells nothing: what ended with a mate names
    // one, and what ended with no mate a problem that is none; and both can be read.
    ensures own_mate { (c : Mating) (moves : List Move)
        → result ≡ Ended.Answered (LibraryAnswer.Solved (Solution.Mate c moves))
        → NamesMate c moves }
    ensures own_no_mate { (c : Escaping)
        → result ≡ Ended.Answered (LibraryAnswer.Solved (Solution.NoMate c)) → NamesNoMate c }

    // In full: what it means by an answer and by each fault.
    ensures ended { IsEnded (library_meaning (solve_in asked.now))
        (signals T.signal stops.old.items stops.new.items)
        (shown S.left S.faults source.old source.new)
        (shown K.kept K.faults sink.old sink.new) result }

    // Each stop is armed once, for the deadline or for none, where a solution is told, before any
    // is polled; and only the workers' are polled, worker w's at place w. Else no stop is used;
    // where memory is wanted, either.
    ensures used { AreUsedFor (solve_in asked.now)
        (signals T.signal stops.old.items stops.new.items) result }

    // The source's count of faults rises only where the run ends for it, and the sink's likewise.
    ensures counted { IsCounted (shown S.left S.faults source.old source.new)
        (shown K.kept K.faults sink.old sink.new) result }

    // A problem and a library, told by the source and not too long, are answered, unless the
    // outside fails or memory is wanted.
    ensures complete { HasLibraryLeft asked.now.form (S.left source.old)
        → ¬ Rose (S.faults source.old) (S.faults source.new)
        → ¬ Rose (K.faults sink.old) (K.faults sink.new) → IsAnswered result ⊎ WantsMemory result }
{
    // No text stands for two problems, or is two libraries', and no certificate has two verdicts.
    problem_laws();
    library_laws();
    verdict_laws();
    library_through(rt, asked, source, sink, gate, stops)
}

/// The same by one worker: it waits for nobody, so it returns where source, sink, gate and stops
/// do.
pub fn solve_with_library_alone<S: Source, K: Sink, G: Gate, T: Stop>(
    alloc: Global,
    asked: &Solve,
    source: &mut S,
    sink: &mut K,
    gate: &G,
    stops: &mut [T],
) -> Ended<LibraryAnswer, LibraryTextFault>
    requires alone { asked.now.settings.workers ≡ 1 }
    requires stops { 0 < length stops.old }
    ensures { IsLibraryRun (solve_in asked.now)
        (signals T.signal stops.old stops.new)
        (shown S.left S.faults source.old source.new)
        (shown K.kept K.faults sink.old sink.new) result }
{
    // No text stands for two problems, or is two libraries', and no certificate has two verdicts.
    problem_laws();
    library_laws();
    verdict_laws();
    alone_through(alloc, asked, source, sink, gate, stops)
}
