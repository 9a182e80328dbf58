// The list of checks.
ghost use Rattle.std.specs.Prelude.{◌≡◌, ◌<◌, ◌+◌, ◌*◌, ◌↔◌, [], IfOk, OnOk};
ghost use Rattle.board_core.specs.Order.{Lists};
ghost use Rattle.shogi_rules.specs.Rules.{IsQuiet};
ghost use Rattle.shogi_rules.specs.Tsume.{IsCheck};
ghost use Rattle.check_moves.specs.Aim.{IsAimOf};
ghost use Rattle.check_moves.specs.Before.{IsCheckBefore};

use crate::aim::Aim;
use board_core::{Kind, Position, order_laws, value_laws};
use move_lists::Moves;
use shogi_rules::{Problem, legal_laws};
use std::alloc::{AllocError, Global};

// Adds the checks by pieces on the board.
fn add_board_checks(moves: &mut Moves, aim: &Aim, position: &Position) -> Result<(), AllocError>
    requires aim { IsAimOf position.now aim.now }
    requires quiet { IsQuiet position.now }
    requires empty { moves.old ≡ [] }
    ensures { OnOk result (Lists (IsCheckBefore position.now.side position.now 13122) moves.new) }
{
    // No two moves have one place in the order, no two squares one number, and a legal move is one
    // of an own piece.
    order_laws();
    value_laws();
    legal_laws();
    let mut left = position.occupied(position.side());
    while let Some(from) = left.pop_first() {
        let found = aim.board_checks(position, from);
        moves.add_board(from, found.plain, found.promoted)?;
    }
    Ok(())
}

// Adds the checks by drops.
fn add_drop_checks(moves: &mut Moves, aim: &Aim, position: &Position) -> Result<(), AllocError>
    requires aim { IsAimOf position.now aim.now }
    requires quiet { IsQuiet position.now }
    requires before { Lists (IsCheckBefore position.now.side position.now 13122) moves.old }
    ensures { OnOk result (Lists (IsCheck position.now.side position.now) moves.new) }
{
    // No two moves have one place in the order, no two kinds one place in theirs, and no hand holds
    // a king.
    order_laws();
    value_laws();
    position.laws();
    for kind in Kind::IN_HAND {
        moves.add_drops(kind, aim.drop_checks(position, kind))?;
    }
    Ok(())
}

/// Makes the list that of the checks at a position: exactly the legal moves of the problem's
/// attacker after which the defender's king is attacked, each once, in the order of moves; none
/// where the attacker isn't to move. It takes memory only where the list has no room. Errors: want
/// of memory alone; what the list has then isn't said.
///
/// The side not to move must not be in check. (The tsume rule: each move of the attacker is a
/// check.)
pub fn checks_into(
    problem: &Problem,
    position: &Position,
    moves: &mut Moves,
) -> Result<(), AllocError>
    requires { IsQuiet position.now }
    ensures { OnOk result (Lists (IsCheck problem.now.position.side position.now) moves.new) }
{
    // What every position keeps holds of this one, and what a legal move has is known.
    position.laws();
    legal_laws();
    moves.clear();
    if position.side() != problem.attacker() {
        return Ok(());
    }
    match position.king_square(position.side().other()) {
        Some(king) => {
            let aim = Aim::of(position, king);
            add_board_checks(moves, &aim, position)?;
            add_drop_checks(moves, &aim, position)
        }
        None => Ok(()),
    }
}

/// The checks at a position, as [`checks_into`] lists them. Errors: want of memory alone.
///
/// The side not to move must not be in check. (The tsume rule: each move of the attacker is a
/// check.)
pub fn checks(alloc: Global, problem: &Problem, position: &Position) -> Result<Moves, AllocError>
    requires { IsQuiet position.now }
    ensures { IfOk result (λ moves. Lists (IsCheck problem.now.position.side position.now) moves) }
{
    let mut moves = Moves::new(alloc);
    checks_into(problem, position, &mut moves)?;
    Ok(moves)
}
