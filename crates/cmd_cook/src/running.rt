// A run of `cook`.
ghost use Rattle.std.specs.Prelude.{◌≡◌, ◌≤◌, ◌⊎◌, ℕ, List, Some, length};
ghost use Rattle.cook_report.specs.declared.report.Line.{Line};
ghost use Rattle.tsume_io.specs.Faults.{Rose};
ghost use Rattle.one_run.specs.Outside.{shown};
ghost use Rattle.one_run.specs.Run.{IsEnded, AreUsedTill, IsCounted, IsAnswered, IsRun, WantsMemory};
ghost use Rattle.one_run.specs.Stops.{once_armed, signals};
ghost use Rattle.cmd_cook.specs.Asked.{cook_in};
ghost use Rattle.cmd_cook.specs.Headline.{HasProblemLeft, NamesLine, NamesReport, Reports, ReportsLine, StandsForLine, StandsForReport, StandsForSearches};
ghost use Rattle.cmd_cook.specs.Meaning.{cook_meaning};
ghost use Rattle.cmd_cook.specs.declared.answer.CookAnswer.{CookAnswer as TheAnswer};
ghost use Rattle.cmd_cook.specs.declared.answer.ToldLine.{ToldLine};

use crate::deciding::answer;
use crate::{Cook, CookAnswer, CookFault};
use cook_line::line_laws;
use cook_report::report_laws;
use cook_search::CheckOnlooker;
use one_run::{Ended, read, tell};
use problem_answers::problem_laws;
use search_gate::{Gate, Stop};
use std::sync::Wait;
use std::thread::Threads;
use tsume_io::{Sink, Source};

// Reads the text, answers it, and tells the answer.
fn cook_through<
    R: Threads + Wait + AllocGlobal + Sync,
    S: Source,
    K: Sink,
    G: Gate + CheckOnlooker,
    T: Stop + Drop,
>(
    rt: &R,
    asked: &Cook,
    source: &mut S,
    sink: &mut K,
    gate: &G,
    stops: &mut Vec<T>,
) -> Ended<CookAnswer, CookFault>
    requires { asked.now.solve.settings.workers ≤ length stops.old.items }
    ensures { IsRun (cook_meaning (cook_in asked.now))
        (signals T.signal stops.old.items stops.new.items)
        (shown S.left S.faults source.old source.new)
        (shown K.kept K.faults sink.old sink.new) result }
{
    let alloc = rt.alloc();
    let input = match read(alloc, asked, source) {
        Ok(input) => input,
        Err(ended) => return ended,
    };
    let answer = answer(rt, asked, &input, gate, stops);
    tell(alloc, asked, input, answer, sink)
}

/// Tells of each first check of the problem of the text that the source gives, an SFEN or the board
/// diagram of a KIF file, of at most [`MOST_PROBLEM_BYTES`](problem_lines::MOST_PROBLEM_BYTES),
/// whether it mates: writes to the sink a word, sound only where exactly one does, cooked only
/// where two or more do, and a line for each check, with what shows it. Where the words give a line
/// of moves, it tells so at each of the attacker's turns along it, and the line's word behind. The
/// position behind each evasion to a check is searched, with the numbers that are asked for, till
/// one is no mate; a check is unknown where a search gave up, or what was found has more entries
/// than are read. Errors: a text that is no problem, with its first fault, or is too long; a line
/// that isn't one from the problem, with the number of its first bad move; a source or a sink that
/// failed; want of memory. The gate is passed for each visit of a position, as the worker that
/// visits it, and told which check is searched (no clause says it). (The tsume rule.)
pub fn cook<
    R: Threads + Wait + AllocGlobal + Sync,
    S: Source,
    K: Sink,
    G: Gate + CheckOnlooker,
    T: Stop + Drop,
>(
    rt: &R,
    asked: &Cook,
    source: &mut S,
    sink: &mut K,
    gate: &G,
    stops: &mut Vec<T>,
) -> Ended<CookAnswer, CookFault>
    // There is a stop for each worker.
    requires { asked.now.solve.settings.workers ≤ length stops.old.items }
    // In plain words. Where it ended with a report, the bytes that the source had left stand for a
    // problem, for which the report is valid: it has a line for each check, in order; where that
    // says that the check mates, every evasion to it leads to a mate; where it says that an evasion
    // escapes, that evasion leads to no mate. Its word is sound only where exactly one first check
    // mates, cooked only where two do, nomate only where the problem is no mate.
    ensures report { (input : List ℕ) (lines : List Line) → S.left source.old ≡ Some input
        → Reports result lines → StandsForReport asked.now.solve.form input lines }

    // Whatever the source tells of its bytes, as a file tells nothing: the report is valid for a
    // problem, and shows what it says of it.
    ensures own_report { (lines : List Line) → Reports result lines → NamesReport lines }

    // Where it ended with what is told along a line, the words give that line, and the bytes stand
    // for a problem from which its moves are checks and evasions in turn. For the problem, and for
    // the position after each two further moves, as long as the line has a check there, there is a
    // report, valid for that position, which shows what it says. The line's word is sound only
    // where at each of these positions whose check has an evasion this check mates, and no other
    // does; cooked only where at one of them another mates; nomate only where one of them is no
    // mate. (Only to the line's last check there may be no evasion.)
    ensures along { (input : List ℕ) (told : ToldLine) → S.left source.old ≡ Some input
        → ReportsLine result told
        → StandsForLine asked.now.solve.form (cook_in asked.now).line input told }

    // The same of a problem, whatever the source tells of its bytes.
    ensures own_along { (told : ToldLine) → ReportsLine result told
        → NamesLine (cook_in asked.now).line told }

    // Each line of a report tells what came out of searches of its position, which were made one
    // after the other: what a mate's line lists is what the certificates of the mates behind all
    // evasions list together; an escape's line names the first evasion that was found to lead to
    // none. A check is unknown only where a search left the position behind an evasion undecided,
    // and the line's is the first such: one of the stated limits was used up by the workers of the
    // search, a worker's stop signalled, or its certificate would have more entries than are read;
    // each evasion before it was found to lead to a mate, and each behind it was, or is undecided
    // too. Or else all lead to mates, whose certificates list more positions together than are
    // read.
    ensures searches { (input : List ℕ) (answer : TheAnswer) → S.left source.old ≡ Some input
        → result ≡ Ended.Answered answer
        → StandsForSearches asked.now.solve.form (cook_in asked.now).solve.settings
        (once_armed (cook_in asked.now).solve.watch.deadline
        (signals T.signal stops.old.items stops.new.items)) input answer }

    // In full: what it means by an answer and by each fault.
    ensures ended { IsEnded (cook_meaning (cook_in asked.now))
        (signals T.signal stops.old.items stops.new.items)
        (shown S.left S.faults source.old source.new)
        (shown K.kept K.faults sink.old sink.new) result }

    // Each stop is armed once, for the deadline or for none, where the text stands for a problem
    // and the line is one from it, before any is polled; and only the workers' are polled, worker
    // w's at place w. Else no stop is used; where memory is wanted, either.
    ensures used { AreUsedTill (cook_meaning (cook_in asked.now))
        (signals T.signal stops.old.items stops.new.items) result }

    // The source's count of faults rises only where the run ends for it, and the sink's likewise.
    ensures counted { IsCounted (shown S.left S.faults source.old source.new)
        (shown K.kept K.faults sink.old sink.new) result }

    // The text of a problem, told by the source and not too long, is answered, where the line that
    // the words give, if they do, is one of moves from it; unless the outside fails or memory is
    // wanted.
    ensures complete { HasProblemLeft asked.now.solve.form (cook_in asked.now).line
        (S.left source.old)
        → ¬ Rose (S.faults source.old) (S.faults source.new)
        → ¬ Rose (K.faults sink.old) (K.faults sink.new) → IsAnswered result ⊎ WantsMemory result }
{
    // What stands for a problem has no fault, nor has what says a line; valid reports show what
    // they say, and a line's word means something.
    problem_laws();
    report_laws();
    line_laws();
    cook_through(rt, asked, source, sink, gate, stops)
}
