// A run of `survey`.
ghost use Rattle.std.specs.Prelude.{◌≡◌, ◌⊎◌, IfOk};
ghost use Rattle.tsume_io.specs.Faults.{Rose};
ghost use Rattle.cmd_survey.specs.Words.{survey_in};
ghost use Rattle.one_run.specs.Outside.{shown};
ghost use Rattle.one_run.specs.Written.{IsStatedRun, IsWhole};
ghost use Rattle.cmd_survey.specs.Headline.{IsSurvey, survey_meaning};

use crate::{Summary, SurveyRange, Tallies, summary_text};
use one_run::{Written, write};
use std::alloc::{AllocError, Global};
use std::thread::Threads;
use tsume_io::Sink;

fn summary_of<R: Threads + Sync>(
    rt: &R,
    alloc: Global,
    range: &SurveyRange,
) -> Result<Summary, AllocError>
    ensures { IfOk result (IsSurvey (survey_in range.now)) }
{
    let tallies = survey::survey(rt, alloc, range.seed, range.count, range.expansions.count)?;
    Ok(Summary {
        seed: range.seed,
        tallies: Tallies::new(tallies),
    })
}

/// Surveys the problems of a range of numbers: decides them side by side, and writes to the sink
/// how many ended in which way. Nothing is read. The whole text is made before the first write.
/// Errors: a sink that failed; want of memory.
pub fn survey<R: Threads + Sync, K: Sink>(
    rt: &R,
    alloc: Global,
    range: &SurveyRange,
    sink: &mut K,
) -> Written<Summary>
    // In plain words. Where it ended with a summary, its tallies are those of the problems of the
    // numbers that were asked for, in their order.
    ensures surveyed { (summary : Summary) → result ≡ Written.Whole summary
        → IsSurvey (survey_in range.now) summary }

    // In full: what it means by an answer; and it is answered, unless the sink fails or memory is
    // wanted.
    ensures run { IsStatedRun (survey_meaning (survey_in range.now))
        (shown K.kept K.faults sink.old sink.new) result }
{
    match summary_of(rt, alloc, range) {
        Ok(summary) => {
            let text = summary_text(alloc, &summary);
            write(summary, text, sink)
        }
        Err(_) => Written::NoMemory,
    }
}
