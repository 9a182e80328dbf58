// A run of `check --bound`.
ghost use Rattle.std.specs.Prelude.{◌≡◌, ◌↔◌, ◌⊎◌, ℕ, List, Some};
ghost use Rattle.tsume_io.specs.Faults.{Rose};
ghost use Rattle.one_run.specs.Outside.{shown};
ghost use Rattle.one_run.specs.Run.{IsAnswered, IsBrokenOff, IsRun, WantsMemory};
ghost use Rattle.one_run.specs.Stops.{Signals, AreUnused};
ghost use Rattle.cmd_check.specs.Asked.{IsProblemInWords, check_in};
ghost use Rattle.cmd_bound.specs.Headline.{HasTextLeft, IsNoneText, IsShortestText};
ghost use Rattle.cmd_bound.specs.Meaning.{bound_meaning};

use crate::BoundJudgement;
use crate::asked::WithBound;
use crate::judging::answer;
use bound_check::valid_bound_is_accepted;
use cmd_check::Check;
use one_run::{Ended, read, tell};
use problem_answers::problem_laws;
use shogi_rules::Problem;
use shortest_text::{ShortestFault, shortest_laws};
use std::alloc::Global;
use std::thread::Threads;
use tsume_io::{Sink, Source};

// Reads the text, answers it and tells the answer.
fn check_through<R: Threads + Sync, S: Source, K: Sink>(
    rt: &R,
    alloc: Global,
    asked: &Check,
    problem: &Option<Problem>,
    source: &mut S,
    sink: &mut K,
) -> Ended<BoundJudgement, ShortestFault>
    requires { IsProblemInWords (check_in asked.now) problem.now }
    ensures { (stops : Signals) → AreUnused stops → IsRun (bound_meaning (check_in asked.now)) stops
        (shown S.left S.faults source.old source.new)
        (shown K.kept K.faults sink.old sink.new) result }
{
    let with = WithBound { asked };
    let input = match read(alloc, &with, source) {
        Ok(input) => input,
        Err(ended) => return ended,
    };
    let answer = answer(rt, alloc, problem, asked.workers, &input);
    tell(alloc, &with, input, answer, sink)
}

/// Checks the text about the shortest mate that the source gives, of at most
/// [`MOST_CERTIFICATE_BYTES`](cmd_check::MOST_CERTIFICATE_BYTES)
/// ([`read_shortest`](shortest_text::read_shortest)): writes to the sink that the shortest mate
/// takes so many moves, that there is none within so many, or the first reason why that isn't
/// shown: one against the certificate, as of [`check`](cmd_check::check); that the mate has another
/// rank than the text says; or one against the bound
/// ([`check_bound`](bound_check::check_bound)). It is judged for the problem that the words give,
/// which was accepted ([`asked_problem`](cmd_check::asked_problem)), or for its own. Positions are
/// compared, and not texts. The mate's entries are checked side by side, by as many workers as are
/// asked for, or processors, 32 at most. Errors: a text of neither form, with its first fault, or
/// one that is too long; a source or a sink that failed; want of memory.
pub fn check_with_bound<R: Threads + Sync, S: Source, K: Sink>(
    rt: &R,
    alloc: Global,
    asked: &Check,
    problem: &Option<Problem>,
    source: &mut S,
    sink: &mut K,
) -> Ended<BoundJudgement, ShortestFault>
    requires { IsProblemInWords (check_in asked.now) problem.now }
    // In plain words. Where it wasn't broken off, it accepts a shortest mate of so many moves
    // exactly where the bytes are a mate's certificate and a bound that are valid for the problem
    // whose text the words give, or for their own where they give none, with this rank: and then
    // the problem is a mate in so many moves, and in no fewer.
    ensures shortest { (input : List ℕ) (moves : ℕ) → S.left source.old ≡ Some input
        → ¬ IsBrokenOff result
        → ((result ≡ Ended.Answered (BoundJudgement.Shortest moves))
        ↔ IsShortestText (check_in asked.now) input moves) }

    // It accepts that there is no mate within so many moves exactly where the bytes are a bound
    // that is valid for that: and then there is none.
    ensures none_within { (input : List ℕ) (moves : ℕ) → S.left source.old ≡ Some input
        → ¬ IsBrokenOff result
        → ((result ≡ Ended.Answered (BoundJudgement.NoneWithin moves))
        ↔ IsNoneText (check_in asked.now) input moves) }

    // In full: what it means by an answer and by each fault; no stop is used; the counts of faults
    // rise only where the run ends for it.
    ensures run { (stops : Signals) → AreUnused stops
        → IsRun (bound_meaning (check_in asked.now)) stops
        (shown S.left S.faults source.old source.new)
        (shown K.kept K.faults sink.old sink.new) result }

    // A text of one of the two forms, told by the source and not too long, is answered, unless the
    // outside fails or memory is wanted.
    ensures complete { HasTextLeft (S.left source.old)
        → ¬ Rose (S.faults source.old) (S.faults source.new)
        → ¬ Rose (K.faults sink.old) (K.faults sink.new) → IsAnswered result ⊎ WantsMemory result }
{
    // No text stands for two problems, or says two things, and a valid bound is accepted.
    problem_laws();
    shortest_laws();
    valid_bound_is_accepted();
    check_through(rt, alloc, asked, problem, source, sink)
}
