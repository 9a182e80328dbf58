// What is found of the moves of a text.
ghost use Rattle.std.specs.Prelude.{◌≡◌, ◌↔◌, ◌%◌, length, IsTrue, IfOk};
ghost use Rattle.board_core.specs.declared.moves.Move.{Move};
ghost use Rattle.shogi_rules.specs.Rules.{IsQuiet};
ghost use Rattle.shogi_rules.specs.Tsume.{IsEvasion};
ghost use Rattle.kif_moves.specs.Playing.{AreInTurn, after_all};
ghost use Rattle.one_run.specs.Command.{IsAnswer};
ghost use Rattle.one_run.specs.Stops.{Signals, AreUnused};
ghost use Rattle.cmd_solution.specs.Verdict.{EndsInMate, IsTrueOf};
ghost use Rattle.cmd_solution.specs.Meaning.{solution_meaning};

use crate::SolutionVerdict;
use board_core::{Move, Position};
use evasions::answers;
use kif_moves::{KifMovesEnd, KifMovesFault, kif_moves_laws, read_kif_moves};
use one_run::Unanswered;
use shogi_rules::{Problem, apply};
use std::alloc::{AllocError, Global};

// The position after the moves.
fn last_position(problem: &Problem, moves: &[Move]) -> Position
    requires { AreInTurn problem.now.position.side problem.now.position moves.now }
    ensures position { result ≡ after_all problem.now.position moves.now }
    ensures quiet { IsQuiet result }
{
    let mut position = problem.position;
    for at in 0..moves.len() {
        position = apply(&position, moves[at]);
    }
    position
}

// Whether the defender has no evasion.
fn is_stuck(alloc: Global, problem: &Problem, position: &Position) -> Result<bool, AllocError>
    requires { IsQuiet position.now }
    ensures { IfOk result (λ stuck. IsTrue stuck ↔ ((evasion : Move)
        → ¬ IsEvasion problem.now.position.side position.now evasion)) }
{
    let evasions = answers(alloc, problem, position)?;
    Ok(evasions.len() == 0)
}

fn verdict_of(
    alloc: Global,
    problem: &Problem,
    moves: &[Move],
) -> Result<SolutionVerdict, AllocError>
    requires { AreInTurn problem.now.position.side problem.now.position moves.now }
    ensures { IfOk result (IsTrueOf problem.now.position moves.now) }
{
    let last = last_position(problem, moves);
    let stuck = is_stuck(alloc, problem, &last)?;
    let mate = moves.len() % 2 == 1 && stuck;
    Ok(SolutionVerdict {
        moves: moves.len() as u64,
        mate,
    })
}

/// What is answered to the bytes of a KIF text: how many moves it has, and whether they end in
/// mate; or its first fault.
pub(crate) fn answer(
    alloc: Global,
    input: &[u8],
) -> Result<SolutionVerdict, Unanswered<KifMovesFault>>
    ensures { (stops : Signals) → AreUnused stops
        → IsAnswer solution_meaning stops input.now result }
{
    // No text has two first faults, and none that stands for something has one.
    kif_moves_laws();
    let solution = match read_kif_moves(alloc, input) {
        Ok(solution) => solution,
        Err(KifMovesEnd::Fault(fault)) => return Err(Unanswered::Text(fault)),
        Err(KifMovesEnd::NoMemory) => return Err(Unanswered::NoMemory),
    };
    match verdict_of(alloc, &solution.problem, &solution.moves) {
        Ok(verdict) => Ok(verdict),
        Err(_) => Err(Unanswered::NoMemory),
    }
}
