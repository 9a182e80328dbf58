// What is found of a problem with a library behind it.
ghost use Rattle.std.specs.Prelude.{◌≡◌, ◌<◌, ◌≤◌, List, length, IfOk, IfErr};
ghost use Rattle.notes.specs.Derivation.{Derivation};
ghost use Rattle.search_crew.specs.End.{IsSearchEndWith};
ghost use Rattle.search_limits.specs.Sizes.{SettingsView};
ghost use Rattle.search_pool.specs.End.{IsSolution as IsSolved};
ghost use Rattle.app_texts.specs.Texts.{HasLine};
ghost use Rattle.one_run.specs.Command.{IsAnswer};
ghost use Rattle.one_run.specs.Stops.{Signals, signals};
ghost use Rattle.one_run.specs.declared.command.Unanswered.TheVariants.{NoMemory};
ghost use Rattle.cmd_solve.specs.Asked.{solve_in};
ghost use Rattle.cmd_library.specs.Answer.{IsTrueWith};
ghost use Rattle.cmd_library.specs.Inside.{IsToldBy};
ghost use Rattle.cmd_library.specs.Meaning.{library_meaning};
ghost use Rattle.cmd_library.specs.Text.{HasText};

use crate::begun::{Begun, begin};
use crate::{LibraryAnswer, LibraryTextFault};
use app_texts::Solution;
use cmd_solve::{Solve, arm_all, arm_each};
use one_run::Unanswered;
use problem_answers::verdict;
use search_crew::{search_with, search_with_by_one};
use search_gate::{Gate, Stop};
use search_pool::SearchEnd;
use shogi_rules::Problem;
use std::alloc::{AllocError, Global};
use std::sync::Wait;
use std::thread::Threads;

// What a search of the problem that ended so tells: a verdict, or that it gave up. Errors: want of
// memory alone.
fn solution_of(alloc: Global, problem: &Problem, end: SearchEnd) -> Result<Solution, AllocError>
    requires { IsSolved problem.now.position end }
    ensures true_of { (notes : List Derivation) (s : SettingsView) (stops : Signals)
        → IsSearchEndWith notes problem.now.position s stops.before stops.after end
        → IfOk result (IsTrueWith notes problem.now.position s stops) }
    ensures line { IfOk result HasLine }
{
    match end {
        SearchEnd::Solved(note) => verdict(alloc, problem, &note),
        SearchEnd::Unknown(cause, crew) => Ok(Solution::Unknown(cause, crew)),
    }
}

// The same, or that memory was wanted, here or in the search.
fn told(
    alloc: Global,
    problem: &Problem,
    end: Result<SearchEnd, AllocError>,
) -> Result<LibraryAnswer, Unanswered<LibraryTextFault>>
    requires { IfOk end (IsSolved problem.now.position) }
    ensures true_of { (notes : List Derivation) (s : SettingsView) (stops : Signals)
        → IfOk end (IsSearchEndWith notes problem.now.position s stops.before stops.after)
        → IfOk result (IsToldBy (IsTrueWith notes problem.now.position s stops)) }
    ensures memory { IfErr result (λ why. why ≡ NoMemory) }
    ensures line { IfOk result HasText }
{
    let Ok(end) = end else {
        return Err(Unanswered::NoMemory);
    };
    match solution_of(alloc, problem, end) {
        Ok(solution) => Ok(LibraryAnswer::Solved(solution)),
        Err(_) => Err(Unanswered::NoMemory),
    }
}

/// What is answered to the bytes of a problem with a library behind it by one worker, which polls
/// the first stop: the solution of the problem, from what the library lists; or the certificate
/// that is refused; or the text's first fault.
pub(crate) fn answer_alone<G: Gate, T: Stop>(
    alloc: Global,
    asked: &Solve,
    input: &[u8],
    gate: &G,
    stops: &mut [T],
) -> Result<LibraryAnswer, Unanswered<LibraryTextFault>>
    requires alone { asked.now.settings.workers ≡ 1 }
    requires stops { 0 < length stops.old }
    ensures answer { IsAnswer (library_meaning (solve_in asked.now))
        (signals T.signal stops.old stops.new) input.now result }
    ensures line { IfOk result HasText }
{
    match begin(alloc, asked, input)? {
        Begun::Refused(refused) => Ok(LibraryAnswer::Refused(refused)),
        Begun::Ready(problem, notes) => {
            arm_each(stops, asked.watch.deadline);
            let end = search_with_by_one(alloc, &problem, &asked.settings, &notes, gate, stops);
            told(alloc, &problem, end)
        }
    }
}

/// The same as [`answer_alone`] by as many workers as the settings say, each of which polls the
/// stop at its place.
pub(crate) fn answer<R: Threads + Wait + AllocGlobal + Sync, G: Gate, T: Stop + Drop>(
    rt: &R,
    asked: &Solve,
    input: &[u8],
    gate: &G,
    stops: &mut Vec<T>,
) -> Result<LibraryAnswer, Unanswered<LibraryTextFault>>
    requires stops { asked.now.settings.workers ≤ length stops.old.items }
    ensures answer { IsAnswer (library_meaning (solve_in asked.now))
        (signals T.signal stops.old.items stops.new.items) input.now result }
    ensures line { IfOk result HasText }
{
    let alloc = rt.alloc();
    match begin(alloc, asked, input)? {
        Begun::Refused(refused) => Ok(LibraryAnswer::Refused(refused)),
        Begun::Ready(problem, notes) => {
            arm_all(stops, asked.watch.deadline);
            let end = search_with(rt, &problem, &asked.settings, &notes, gate, stops);
            told(alloc, &problem, end)
        }
    }
}
