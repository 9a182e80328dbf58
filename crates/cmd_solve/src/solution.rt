// What is found of the problem of a text.
ghost use Rattle.std.specs.Prelude.{◌≡◌, ◌<◌, ◌≤◌, length, Ok, Err, IfOk, IfErr};
ghost use Rattle.search_limits.specs.Settings.{settings_in};
ghost use Rattle.search_limits.specs.Sizes.{SettingsView};
ghost use Rattle.search_pool.specs.End.{IsSolution as IsSolved};
ghost use Rattle.search_crew.specs.End.{IsSearchEnd};
ghost use Rattle.app_texts.specs.Texts.{HasLine};
ghost use Rattle.one_run.specs.Command.{IsAnswer};
ghost use Rattle.one_run.specs.Stops.{AreUsed, Signals, once_armed, signals};
ghost use Rattle.one_run.specs.declared.command.Unanswered.TheVariants.{Text, NoMemory};
ghost use Rattle.problem_answers.specs.Reading.{StandsFor};
ghost use Rattle.cmd_solve.specs.Answer.{IsTrueOf};
ghost use Rattle.cmd_solve.specs.Asked.{solve_in};
ghost use Rattle.cmd_solve.specs.Meaning.{solve_meaning};

use crate::Solve;
use crate::stops::{arm_all, arm_each};
use app_texts::{ProblemFault, Solution};
use one_run::Unanswered;
use problem_answers::{read_problem, verdict};
use search_crew::{Tables, search_by_one};
use search_gate::{Gate, Stop};
use search_limits::Settings;
use search_pool::SearchEnd;
use shogi_rules::Problem;
use std::alloc::{AllocError, Global};
use std::sync::Wait;
use std::thread::Threads;

// What a search of the problem that ended so tells: a verdict, or that it gave up. Errors: want of
// memory alone.
fn solution_of(alloc: Global, problem: &Problem, end: SearchEnd) -> Result<Solution, AllocError>
    requires { IsSolved problem.now.position end }
    ensures true_of { (s : SettingsView) (stops : Signals)
        → IsSearchEnd problem.now.position s stops.before stops.after end
        → IfOk result (IsTrueOf problem.now.position s stops) }
    ensures line { IfOk result HasLine }
{
    match end {
        SearchEnd::Solved(note) => verdict(alloc, problem, &note),
        SearchEnd::Unknown(cause, crew) => Ok(Solution::Unknown(cause, crew)),
    }
}

// The same, or that memory was wanted, here or in the search.
fn told(
    alloc: Global,
    problem: &Problem,
    end: Result<SearchEnd, AllocError>,
) -> Result<Solution, Unanswered<ProblemFault>>
    requires { IfOk end (IsSolved problem.now.position) }
    ensures true_of { (s : SettingsView) (stops : Signals)
        → IfOk end (IsSearchEnd problem.now.position s stops.before stops.after)
        → IfOk result (IsTrueOf problem.now.position s stops) }
    ensures memory { IfErr result (λ why. why ≡ NoMemory) }
    ensures line { IfOk result HasLine }
{
    let Ok(end) = end else {
        return Err(Unanswered::NoMemory);
    };
    match solution_of(alloc, problem, end) {
        Ok(solution) => Ok(solution),
        Err(_) => Err(Unanswered::NoMemory),
    }
}

// The problem that the bytes of a text stand for, or the text's first fault.
fn posed(asked: &Solve, input: &[u8]) -> Result<Problem, Unanswered<ProblemFault>>
    ensures problem { IfOk result
        (λ problem. StandsFor asked.now.form input.now (Ok problem.position)) }
    ensures fault { IfErr result (λ why. (fault : ProblemFault) × (why ≡ Text fault)
        × StandsFor asked.now.form input.now (Err fault)) }
{
    match read_problem(input, asked.form) {
        Ok(problem) => Ok(problem),
        Err(fault) => Err(Unanswered::Text(fault)),
    }
}

/// What is answered to the bytes of a problem's text by one worker, which polls the first stop: a
/// verdict on the problem that they stand for, or that it was given up; or their first fault.
pub(crate) fn answer_alone<G: Gate, T: Stop>(
    alloc: Global,
    asked: &Solve,
    input: &[u8],
    gate: &G,
    stops: &mut [T],
) -> Result<Solution, Unanswered<ProblemFault>>
    requires alone { asked.now.settings.workers ≡ 1 }
    requires stops { 0 < length stops.old }
    ensures answer { IsAnswer (solve_meaning (solve_in asked.now))
        (signals T.signal stops.old stops.new) input.now result }
    ensures line { IfOk result HasLine }
{
    let problem = posed(asked, input)?;
    arm_each(stops, asked.watch.deadline);
    let end = search_by_one(alloc, &problem, &asked.settings, gate, stops);
    told(alloc, &problem, end)
}

/// What a search is asked: the problem, the numbers, and after how many milliseconds it gives up,
/// none where it has no limit.
#[derive(Clone, Copy)]
pub struct Question<'a> {
    /// The problem.
    pub problem: &'a Problem,
    /// The numbers of the search.
    pub settings: &'a Settings,
    /// For which deadline its stops are armed, if for one.
    pub after_ms: Option<u64>,
}

/// Solves a problem over tables that are kept, by as many workers as the numbers say, each of which
/// polls the stop at its place: tells that it is a mate, with a main line, or that it is none, each
/// with a certificate; or that it was given up, and why. Each stop is armed before, for the
/// deadline or for none. The gate is passed for each visit of a position, as the worker that visits
/// it (no clause says it). Errors: want of memory alone. (The tsume rule.)
pub fn solve_problem<R: Threads + Wait + AllocGlobal + Sync, G: Gate, T: Stop + Drop>(
    rt: &R,
    question: &Question<'_>,
    tables: &mut Tables,
    gate: &G,
    stops: &mut Vec<T>,
) -> Result<Solution, AllocError>
    // There is a stop for each worker.
    requires stops { question.now.settings.now.workers ≤ length stops.old.items }
    // What is told is what the search found, which polled the armed stops.
    ensures true_of { IfOk result
        (IsTrueOf question.now.problem.now.position (settings_in question.now.settings.now)
        (once_armed question.now.after_ms (signals T.signal stops.old.items stops.new.items))) }
    // Every move of its line has a text.
    ensures line { IfOk result HasLine }
    // Each stop was armed once, and only the workers' were polled.
    ensures used { AreUsed question.now.settings.now.workers question.now.after_ms
        (signals T.signal stops.old.items stops.new.items) }
{
    arm_all(stops, question.after_ms);
    let end = tables.search(rt, question.problem, question.settings, gate, stops)?;
    solution_of(rt.alloc(), question.problem, end)
}

/// The same as [`answer_alone`] by as many workers as the settings say, each of which polls the
/// stop at its place.
pub(crate) fn answer<R: Threads + Wait + AllocGlobal + Sync, G: Gate, T: Stop + Drop>(
    rt: &R,
    asked: &Solve,
    input: &[u8],
    gate: &G,
    stops: &mut Vec<T>,
) -> Result<Solution, Unanswered<ProblemFault>>
    requires stops { asked.now.settings.workers ≤ length stops.old.items }
    ensures answer { IsAnswer (solve_meaning (solve_in asked.now))
        (signals T.signal stops.old.items stops.new.items) input.now result }
    ensures line { IfOk result HasLine }
{
    let problem = posed(asked, input)?;
    let question = Question {
        problem: &problem,
        settings: &asked.settings,
        after_ms: asked.watch.deadline,
    };
    match solve_problem(rt, &question, &mut Tables::new(), gate, stops) {
        Ok(solution) => Ok(solution),
        Err(_) => Err(Unanswered::NoMemory),
    }
}
