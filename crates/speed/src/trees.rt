// The problems of the standard input, and the positions behind their checks and the evasions to
// these.
ghost use Rattle.std.specs.Prelude.{Contains};
ghost use Rattle.board_core.specs.declared.moves.Move.{Move};
ghost use Rattle.shogi_rules.specs.Rules.{IsQuiet, IsLegal};

use crate::problems::problems;
use board_core::Position;
use check_moves::checks;
use evasions::answers;
use move_lists::Moves;
use shogi_rules::{Problem, apply, legal};
use std::alloc::{AllocError, Global};
use std::io;

/// A position of a problem or after legal moves, with what every such position has.
#[derive(Clone, Copy)]
struct Standing {
    position: Position,
    ghost quiet: { IsQuiet position },
}

/// A position, and its checks or evasions.
#[derive(Drop)]
pub struct Turns {
    pub problem: Problem,
    pub position: Position,
    pub moves: Moves,
    pub ghost quiet: { IsQuiet position },
    pub ghost legal: { (move : Move) → Contains moves move → IsLegal position move },
}

/// Where the problems' checks and the evasions to them lead.
#[derive(Drop)]
pub struct Trees {
    /// The problems' positions, and those after a check and an evasion, with their checks.
    pub attacking: Vec<Turns>,
    /// Those after a check, with their evasions.
    pub defending: Vec<Turns>,
}

fn checks_at(alloc: Global, problem: &Problem, at: &Standing) -> Result<Turns, AllocError> {
    let moves = checks(alloc, problem, &at.position)?;
    Ok(Turns {
        problem: *problem,
        position: at.position,
        moves,
    })
}

fn evasions_at(alloc: Global, problem: &Problem, at: &Standing) -> Result<Turns, AllocError> {
    let moves = answers(alloc, problem, &at.position)?;
    Ok(Turns {
        problem: *problem,
        position: at.position,
        moves,
    })
}

// The positions after the moves.
fn after(alloc: Global, turns: &Turns) -> Result<Vec<Standing>, AllocError> {
    let mut after = Vec::new(alloc);
    for by in turns.moves.as_slice() {
        if legal(&turns.position, *by).is_ok() {
            after.push(Standing {
                position: apply(&turns.position, *by),
            })?;
        }
    }
    Ok(after)
}

fn grow(alloc: Global, trees: &mut Trees, problem: &Problem) -> Result<(), AllocError> {
    let root = Standing {
        position: problem.position,
    };
    let root = checks_at(alloc, problem, &root)?;
    for checked in after(alloc, &root)?.iter() {
        let evasions = evasions_at(alloc, problem, checked)?;
        for evaded in after(alloc, &evasions)?.iter() {
            trees.attacking.push(checks_at(alloc, problem, evaded)?)?;
        }
        trees.defending.push(evasions)?;
    }
    trees.attacking.push(root)?;
    Ok(())
}

/// The trees of the problems of the standard input.
pub fn grown_trees(rt: &HostRuntime) -> io::Result<Trees> {
    let alloc = rt.alloc();
    let mut trees = Trees {
        attacking: Vec::new(alloc),
        defending: Vec::new(alloc),
    };
    for problem in problems(rt)?.iter() {
        grow(alloc, &mut trees, problem)?;
    }
    Ok(trees)
}
