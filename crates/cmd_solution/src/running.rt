// A run of `solution`.
ghost use Rattle.std.specs.Prelude.{◌≡◌, ◌⊎◌, ℕ, List, Some};
ghost use Rattle.tsume_io.specs.Faults.{Rose};
ghost use Rattle.one_run.specs.Outside.{shown};
ghost use Rattle.one_run.specs.Run.{IsAnswered, IsRun, WantsMemory};
ghost use Rattle.one_run.specs.Stops.{Signals, AreUnused};
ghost use Rattle.cmd_solution.specs.declared.verdict.SolutionVerdict.{SolutionVerdict};
ghost use Rattle.cmd_solution.specs.Headline.{HasSolutionLeft};
ghost use Rattle.cmd_solution.specs.Meaning.{solution_meaning};
ghost use Rattle.cmd_solution.specs.Verdict.{IsJudged};

use crate::judging::answer;
use crate::{JudgeSolution, SolutionVerdict};
use kif_moves::{KifMovesFault, kif_moves_laws};
use one_run::{Ended, read, tell};
use std::alloc::Global;
use tsume_io::{Sink, Source};

// Reads the text, answers it and tells the answer.
fn solution_through<S: Source, K: Sink>(
    alloc: Global,
    asked: &JudgeSolution,
    source: &mut S,
    sink: &mut K,
) -> Ended<SolutionVerdict, KifMovesFault>
    ensures run { (stops : Signals) → AreUnused stops → IsRun solution_meaning stops
        (shown S.left S.faults source.old source.new)
        (shown K.kept K.faults sink.old sink.new) result }
{
    let input = match read(alloc, asked, source) {
        Ok(input) => input,
        Err(ended) => return ended,
    };
    let answer = answer(alloc, &input);
    tell(alloc, asked, input, answer, sink)
}

/// Judges the solution of the KIF text that the source gives, of at most
/// [`MOST_PROBLEM_BYTES`](problem_lines::MOST_PROBLEM_BYTES): writes to the sink how many moves it
/// has, and whether they end in mate. Errors: a text that is no problem with checks and evasions in
/// turn, with its first fault, or is too long; a source or a sink that failed; want of memory.
pub fn solution<S: Source, K: Sink>(
    alloc: Global,
    asked: &JudgeSolution,
    source: &mut S,
    sink: &mut K,
) -> Ended<SolutionVerdict, KifMovesFault>
    // In plain words. What it answers is true of the problem and the moves that the bytes stand
    // for: so many, checks and evasions in turn, and mate exactly where the attacker made the last
    // and the defender has no evasion to it.
    ensures judged { (input : List ℕ) (verdict : SolutionVerdict) → S.left source.old ≡ Some input
        → result ≡ Ended.Answered verdict → IsJudged input verdict }

    // In full: what it means by an answer and by each fault; no stop is used; the counts of faults
    // rise only where the run ends for it.
    ensures run { (stops : Signals) → AreUnused stops → IsRun solution_meaning stops
        (shown S.left S.faults source.old source.new)
        (shown K.kept K.faults sink.old sink.new) result }

    // A text that stands for a problem and moves, told by the source and not too long, is answered,
    // unless the outside fails or memory is wanted.
    ensures complete { HasSolutionLeft (S.left source.old)
        → ¬ Rose (S.faults source.old) (S.faults source.new)
        → ¬ Rose (K.faults sink.old) (K.faults sink.new) → IsAnswered result ⊎ WantsMemory result }
{
    // A text that stands for something has no fault.
    kif_moves_laws();
    solution_through(alloc, asked, source, sink)
}
