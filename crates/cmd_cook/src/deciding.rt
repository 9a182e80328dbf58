// What is told of the problem of a text.
ghost use Rattle.std.specs.Prelude.{◌≤◌, ℕ, List, Option, IfErr, IfOk, length, map};
ghost use Rattle.search_gate.specs.Polls.{ArePolled};
ghost use Rattle.search_limits.specs.Settings.{settings_in};
ghost use Rattle.one_run.specs.Command.{IsAnswer};
ghost use Rattle.one_run.specs.Stops.{signals};
ghost use Rattle.cmd_cook.specs.Answer.{IsSearchedFor, IsToldFor};
ghost use Rattle.cmd_cook.specs.Asked.{cook_in};
ghost use Rattle.cmd_cook.specs.Inside.{IsLineRead, IsLineUnread};
ghost use Rattle.cmd_cook.specs.Meaning.{cook_meaning};

use crate::{Cook, CookAnswer, CookFault, ToldLine, ToldReport};
use board_core::Move;
use cmd_solve::arm_all;
use cook_along::reports_along;
use cook_line::{LineEnd, line_laws, read_line};
use cook_search::{CheckOnlooker, Ground};
use one_run::Unanswered;
use problem_answers::read_problem;
use search_gate::{Gate, Stop};
use shogi_rules::Problem;
use std::alloc::{AllocError, Global};
use std::sync::Wait;
use std::thread::Threads;

// The moves of the line that the words give, where they give one; or the number of the first that
// is none from the problem.
fn line_from(alloc: Global, asked: &Cook, problem: &Problem) -> Result<Option<Vec<Move>>, LineEnd>
    ensures read { IfOk result (IsLineRead (cook_in asked.now).line problem.now.position) }
    ensures unread { IfErr result (IsLineUnread (cook_in asked.now).line problem.now.position) }
{
    let Some(text) = &asked.line else {
        return Ok(None);
    };
    let moves = read_line(alloc, problem, text.as_bytes())?;
    Ok(Some(moves))
}

// What is told of the problem, or along the line of moves from it. Errors: want of memory alone.
fn told<R: Threads + Wait + AllocGlobal + Sync, G: Gate + CheckOnlooker, T: Stop + Drop>(
    ground: &Ground<'_, R, G>,
    line: Option<Vec<Move>>,
    stops: &mut Vec<T>,
) -> Result<CookAnswer, AllocError>
    requires stops { ground.now.settings.now.workers ≤ length stops.old.items }
    requires line { (text : Option (List ℕ))
        × IsLineRead text ground.now.problem.now.position line }
    ensures told { (text : Option (List ℕ))
        → IsLineRead text ground.now.problem.now.position line
        → IfOk result (IsToldFor text ground.now.problem.now.position) }
    ensures found { IfOk result (IsSearchedFor ground.now.problem.now.position
        (settings_in ground.now.settings.now)
        (signals T.signal stops.old.items stops.new.items)) }
    ensures polled { ArePolled ground.now.settings.now.workers
        (map T.signal stops.old.items) (map T.signal stops.new.items) }
{
    // What is said of a line is checks and evasions in turn.
    line_laws();
    match line {
        None => {
            let (report, crews) = cook_search::cook(ground, stops)?;
            Ok(CookAnswer::Report(ToldReport { report, crews }))
        }
        Some(moves) => {
            let (stages, crews) = reports_along(ground, &moves, stops)?;
            Ok(CookAnswer::Lines(ToldLine {
                moves,
                stages,
                crews,
            }))
        }
    }
}

/// What is answered to the bytes of a problem's text: what is told of the first checks of the
/// problem that they stand for, or of those along the line from it that the words give; or the
/// first fault, of the text or of the line. The stops are armed where there is none.
pub(crate) fn answer<
    R: Threads + Wait + AllocGlobal + Sync,
    G: Gate + CheckOnlooker,
    T: Stop + Drop,
>(
    rt: &R,
    asked: &Cook,
    input: &[u8],
    gate: &G,
    stops: &mut Vec<T>,
) -> Result<CookAnswer, Unanswered<CookFault>>
    requires stops { asked.now.solve.settings.workers ≤ length stops.old.items }
    ensures { IsAnswer (cook_meaning (cook_in asked.now))
        (signals T.signal stops.old.items stops.new.items) input.now result }
{
    let problem = match read_problem(input, asked.solve.form) {
        Ok(problem) => problem,
        Err(fault) => return Err(Unanswered::Text(CookFault::Problem(fault))),
    };
    // What the problem's position keeps.
    problem.position.laws();
    let line = match line_from(rt.alloc(), asked, &problem) {
        Ok(line) => line,
        Err(LineEnd::BadMove(number)) => return Err(Unanswered::Text(CookFault::Line(number))),
        Err(LineEnd::NoMemory) => return Err(Unanswered::NoMemory),
    };
    arm_all(stops, asked.solve.watch.deadline);
    let ground = Ground {
        rt,
        problem: &problem,
        settings: &asked.solve.settings,
        gate,
    };
    match told(&ground, line, stops) {
        Ok(answer) => Ok(answer),
        Err(_) => Err(Unanswered::NoMemory),
    }
}
