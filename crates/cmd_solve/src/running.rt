// A run of `solve`.
ghost use Rattle.std.specs.Prelude.{◌≡◌, ◌<◌, ◌≤◌, ◌⊎◌, ℕ, List, Some, length};
ghost use Rattle.board_core.specs.declared.moves.Move.{Move};
ghost use Rattle.cert_text.specs.Certificate.{Mating, Escaping};
ghost use Rattle.search_limits.specs.declared.cause.Cause.{Cause};
ghost use Rattle.visit_log.specs.Run.{WorkerView};
ghost use Rattle.tsume_io.specs.Faults.{Rose};
ghost use Rattle.one_run.specs.Outside.{shown};
ghost use Rattle.one_run.specs.Run.{IsEnded, AreUsedTill, IsCounted, IsAnswered, IsRun, WantsMemory};
ghost use Rattle.one_run.specs.Stops.{once_armed, signals};
ghost use Rattle.cmd_solve.specs.Asked.{solve_in};
ghost use Rattle.cmd_solve.specs.Headline.{HasProblemLeft, NamesMate, NamesNoMate, StandsForMate, StandsForNoMate, StandsForUnknown, IsSolveRun};
ghost use Rattle.cmd_solve.specs.Meaning.{solve_meaning};

use crate::Solve;
use crate::solution::{answer, answer_alone};
use app_texts::{ProblemFault, Solution};
use one_run::{Ended, read, tell};
use problem_answers::problem_laws;
use search_gate::{Gate, Stop};
use std::alloc::Global;
use std::sync::Wait;
use std::thread::Threads;
use tsume_io::{Sink, Source};

// Reads the text, answers it by one worker, and tells the answer.
fn alone_through<S: Source, K: Sink, G: Gate, T: Stop>(
    alloc: Global,
    asked: &Solve,
    source: &mut S,
    sink: &mut K,
    gate: &G,
    stops: &mut [T],
) -> Ended<Solution, ProblemFault>
    requires alone { asked.now.settings.workers ≡ 1 }
    requires stops { 0 < length stops.old }
    ensures { IsRun (solve_meaning (solve_in asked.now))
        (signals T.signal stops.old stops.new)
        (shown S.left S.faults source.old source.new)
        (shown K.kept K.faults sink.old sink.new) result }
{
    let input = match read(alloc, asked, source) {
        Ok(input) => input,
        Err(ended) => return ended,
    };
    let answer = answer_alone(alloc, asked, &input, gate, stops);
    tell(alloc, asked, input, answer, sink)
}

// Reads the text, answers it by all workers, and tells the answer.
fn solve_through<
    R: Threads + Wait + AllocGlobal + Sync,
    S: Source,
    K: Sink,
    G: Gate,
    T: Stop + Drop,
>(
    rt: &R,
    asked: &Solve,
    source: &mut S,
    sink: &mut K,
    gate: &G,
    stops: &mut Vec<T>,
) -> Ended<Solution, ProblemFault>
    requires { asked.now.settings.workers ≤ length stops.old.items }
    ensures { IsRun (solve_meaning (solve_in asked.now))
        (signals T.signal stops.old.items stops.new.items)
        (shown S.left S.faults source.old source.new)
        (shown K.kept K.faults sink.old sink.new) result }
{
    let alloc = rt.alloc();
    let input = match read(alloc, asked, source) {
        Ok(input) => input,
        Err(ended) => return ended,
    };
    let answer = answer(rt, asked, &input, gate, stops);
    tell(alloc, asked, input, answer, sink)
}

/// Solves the problem of the text that the source gives, an SFEN or the board diagram of a KIF
/// file, of at most [`MOST_PROBLEM_BYTES`](problem_lines::MOST_PROBLEM_BYTES): writes to the sink
/// the USI answer that it is a mate, with a main line, or that it is none, and the certificate; or,
/// where a limit was used up first, a worker's stop signalled, or the certificate might have more
/// entries than are read, that it is unknown, and why. Errors: a text that is no problem, with its
/// first fault, or is too long; a source or a sink that failed; want of memory. The gate is passed
/// for each visit of a position, as the worker that visits it (no clause says it). (The tsume rule;
/// USI protocol: `checkmate`.)
pub fn solve<R: Threads + Wait + AllocGlobal + Sync, S: Source, K: Sink, G: Gate, T: Stop + Drop>(
    rt: &R,
    asked: &Solve,
    source: &mut S,
    sink: &mut K,
    gate: &G,
    stops: &mut Vec<T>,
) -> Ended<Solution, ProblemFault>
    // There is a stop for each worker.
    requires { asked.now.settings.workers ≤ length stops.old.items }
    // In plain words. Where it ended with a mate, the bytes that the source had left stand for a
    // problem that is a mate, the certificate is valid for it and can be read, and the moves are
    // its main line.
    ensures mate { (input : List ℕ) (c : Mating) (moves : List Move)
        → S.left source.old ≡ Some input → result ≡ Ended.Answered (Solution.Mate c moves)
        → StandsForMate asked.now.form input c moves }

    // Where it ended with no mate, the problem is none, and the certificate is valid for it and can
    // be read.
    ensures no_mate { (input : List ℕ) (c : Escaping) → S.left source.old ≡ Some input
        → result ≡ Ended.Answered (Solution.NoMate c) → StandsForNoMate asked.now.form input c }

    // Where neither is told, one of the stated limits was used up: the expansions, the room for
    // notes, or their height, and all workers are told, one of which met it; or a worker's stop
    // signalled; or the note that was found has more positions than a certificate is read with.
    ensures gave_up { (input : List ℕ) (cause : Cause) (crew : List WorkerView)
        → S.left source.old ≡ Some input
        → result ≡ Ended.Answered (Solution.Unknown cause crew)
        → StandsForUnknown asked.now.form (solve_in asked.now).settings
        (once_armed (solve_in asked.now).watch.deadline
        (signals T.signal stops.old.items stops.new.items)) input cause crew }

    // Whatever the source tells of its bytes, as a file tells nothing: what ended with a mate names
    // one, and what ended with no mate a problem that is none; and both can be read.
    ensures own_mate { (c : Mating) (moves : List Move)
        → result ≡ Ended.Answered (Solution.Mate c moves) → NamesMate c moves }
    ensures own_no_mate { (c : Escaping)
        → result ≡ Ended.Answered (Solution.NoMate c) → NamesNoMate c }

    // In full: what it means by an answer and by each fault.
    ensures ended { IsEnded (solve_meaning (solve_in asked.now))
        (signals T.signal stops.old.items stops.new.items)
        (shown S.left S.faults source.old source.new)
        (shown K.kept K.faults sink.old sink.new) result }

    // Each stop is armed once, for the deadline or for none, where the text stands for a problem,
    // before any is polled; and only the workers' are polled, worker w's at place w. Else no stop
    // is used; where memory is wanted, either.
    ensures used { AreUsedTill (solve_meaning (solve_in asked.now))
        (signals T.signal stops.old.items stops.new.items) result }

    // The source's count of faults rises only where the run ends for it, and the sink's likewise.
    ensures counted { IsCounted (shown S.left S.faults source.old source.new)
        (shown K.kept K.faults sink.old sink.new) result }

    // The text of a problem, told by the source and not too long, is answered, unless the outside
    // fails or memory is wanted.
    ensures complete { HasProblemLeft asked.now.form (S.left source.old)
        → ¬ Rose (S.faults source.old) (S.faults source.new)
        → ¬ Rose (K.faults sink.old) (K.faults sink.new) → IsAnswered result ⊎ WantsMemory result }
{
    // What stands for a problem has no fault.
    problem_laws();
    solve_through(rt, asked, source, sink, gate, stops)
}

/// The same by one worker: it waits for nobody, so it returns where source, sink, gate and stops
/// do.
pub fn solve_alone<S: Source, K: Sink, G: Gate, T: Stop>(
    alloc: Global,
    asked: &Solve,
    source: &mut S,
    sink: &mut K,
    gate: &G,
    stops: &mut [T],
) -> Ended<Solution, ProblemFault>
    requires alone { asked.now.settings.workers ≡ 1 }
    requires stops { 0 < length stops.old }
    ensures { IsSolveRun (solve_in asked.now)
        (signals T.signal stops.old stops.new)
        (shown S.left S.faults source.old source.new)
        (shown K.kept K.faults sink.old sink.new) result }
{
    // What stands for a problem has no fault.
    problem_laws();
    alone_through(alloc, asked, source, sink, gate, stops)
}
