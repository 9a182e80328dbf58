// The reports along a line.
ghost use Rattle.std.specs.Prelude.{◌≡◌, ◌≤◌, ◌<◌, ◌*◌, ◌+◌, ◌-◌, ◌↔◌, IfOk, IsTrue, length, map};
ghost use Rattle.board_core.specs.Board.{Board};
ghost use Rattle.kif_moves.specs.Playing.{AreInTurn};
ghost use Rattle.shogi_rules.specs.Tsume.{IsCheck};
ghost use Rattle.search_gate.specs.Polls.{ArePolled};
ghost use Rattle.search_limits.specs.Settings.{settings_in};
ghost use Rattle.cook_along.specs.Found.{AreFound};
ghost use Rattle.cook_along.specs.Inside.{IsAtTurn, IsStageFound};
ghost use Rattle.cook_line.specs.Stages.{AreStages};
ghost use Rattle.cook_line.specs.Turns.{IsEvaded};

use board_core::Move;
use cook_line::Stage;
use cook_report::report_laws;
use cook_search::{CheckOnlooker, Ground, behind, cook};
use evasions::answers;
use search_gate::{Gate, Stop};
use shogi_rules::{Problem, apply};
use std::alloc::{AllocError, Global};
use std::sync::Wait;
use std::thread::Threads;
use worker_core::Crew;

// The problem at a turn, from that at the turn before it; at the first turn, from itself.
fn at_turn(before: &Problem, moves: &[Move], turn: usize) -> Problem
    requires within { 2 * turn < length moves.now }
    requires before { (p : Board) × IsAtTurn p moves.now (turn - 1) before.now.position }
    ensures { (p : Board) → IsAtTurn p moves.now (turn - 1) before.now.position
        → IsAtTurn p moves.now turn result.position }
{
    if turn == 0 {
        return *before;
    }
    behind(before, moves[2 * turn - 2], moves[2 * turn - 1])
}

// Whether there is an evasion to a check of the problem.
fn is_evaded(alloc: Global, problem: &Problem, check: Move) -> Result<bool, AllocError>
    requires { IsCheck problem.now.position.side problem.now.position check }
    ensures { IfOk result (λ found. IsTrue found ↔ IsEvaded problem.now.position check) }
{
    let evasions = answers(alloc, problem, &apply(&problem.position, check))?;
    Ok(evasions.len() > 0)
}

// What is told at a turn, where the line has this check. The workers of the searches that gave up
// are put behind the others.
fn stage_on<R: Threads + Wait + AllocGlobal + Sync, G: Gate + CheckOnlooker, T: Stop + Drop>(
    ground: &Ground<'_, R, G>,
    check: Move,
    stops: &mut Vec<T>,
    crews: &mut Vec<Crew>,
) -> Result<Stage, AllocError>
    requires check { IsCheck ground.now.problem.now.position.side
        ground.now.problem.now.position check }
    requires stops { ground.now.settings.now.workers ≤ length stops.old.items }
    ensures found { IfOk result
        (IsStageFound ground.now.problem.now.position check (settings_in ground.now.settings.now)
        (map T.signal stops.old.items) (map T.signal stops.new.items)
        crews.old.items crews.new.items) }
    ensures polled { ArePolled ground.now.settings.now.workers
        (map T.signal stops.old.items) (map T.signal stops.new.items) }
{
    // What a valid report shows, and what the problem's position keeps.
    report_laws();
    ground.problem.position.laws();
    let (report, mut own) = cook(ground, stops)?;
    crews.append(&mut own)?;
    let evaded = is_evaded(ground.rt.alloc(), ground.problem, check)?;
    Ok(Stage {
        check,
        evaded,
        report,
    })
}

/// Reports on each position of the attacker along a line of moves from the problem, in order: the
/// problem, and the position after each two further moves, as long as the line has a check there.
/// Each report is made as [`cook`](cook_search::cook) makes it, with the same numbers, and polls
/// the stops as the one before it left them. Behind the stages come the workers of the searches
/// that gave up, one search after the other. Errors: want of memory alone.
pub fn reports_along<
    R: Threads + Wait + AllocGlobal + Sync,
    G: Gate + CheckOnlooker,
    T: Stop + Drop,
>(
    ground: &Ground<'_, R, G>,
    moves: &[Move],
    stops: &mut Vec<T>,
) -> Result<(Vec<Stage>, Vec<Crew>), AllocError>
    // The moves are checks and evasions in turn.
    requires line { AreInTurn ground.now.problem.now.position.side
        ground.now.problem.now.position moves.now }
    // There is a stop for each worker.
    requires stops { ground.now.settings.now.workers ≤ length stops.old.items }
    // There is a stage for each check of the line, whose report is valid for the position there.
    ensures stages { IfOk result
        (λ told. AreStages ground.now.problem.now.position moves.now told.0.items) }
    // Each was found by searches of its position, and the workers are those that gave up.
    ensures found { IfOk result (λ told. AreFound ground.now.problem.now.position moves.now
        (settings_in ground.now.settings.now)
        (map T.signal stops.old.items) (map T.signal stops.new.items) told.0.items told.1.items) }
    // Stops are polled, and nothing else; those beyond the workers' are as they were.
    ensures polled { ArePolled ground.now.settings.now.workers
        (map T.signal stops.old.items) (map T.signal stops.new.items) }
{
    let alloc = ground.rt.alloc();
    let mut problem = *ground.problem;
    let mut stages = Vec::new(alloc);
    let mut crews = Vec::new(alloc);
    for turn in 0..moves.len().div_ceil(2) {
        problem = at_turn(&problem, moves, turn);
        let here = Ground {
            rt: ground.rt,
            problem: &problem,
            settings: ground.settings,
            gate: ground.gate,
        };
        stages.push(stage_on(&here, moves[2 * turn], stops, &mut crews)?)?;
    }
    Ok((stages, crews))
}
