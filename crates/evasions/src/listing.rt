// The list of evasions.
ghost use Rattle.std.specs.Prelude.{◌≡◌, ◌<◌, ◌+◌, ◌*◌, [], IfOk, OnOk};
ghost use Rattle.bit_boards.specs.Kind.{other};
ghost use Rattle.board_core.specs.Order.{Lists};
ghost use Rattle.shogi_rules.specs.Rules.{IsQuiet};
ghost use Rattle.shogi_rules.specs.Tsume.{IsEvasion};
ghost use Rattle.legal_moves.specs.Legal.{IsGuardOf};
ghost use Rattle.evasions.specs.Before.{IsEvasionBefore};

use bit_boards::Mask;
use board_core::{Kind, Position, order_laws, value_laws};
use legal_moves::{Guard, Landings};
use move_lists::Moves;
use shogi_rules::Problem;
use std::alloc::{AllocError, Global};

// Adds the legal moves on the board.
fn add_board_moves(moves: &mut Moves, guard: &Guard, position: &Position) -> Result<(), AllocError>
    requires guard { IsGuardOf position.now guard.now }
    requires empty { moves.old ≡ [] }
    ensures { OnOk result
        (Lists (IsEvasionBefore (other position.now.side) position.now 13122) moves.new) }
{
    // No two moves have one place in the order, and no two squares one number.
    order_laws();
    value_laws();
    let mut left = guard.movers(position);
    while let Some(from) = left.pop_first() {
        let found = guard.board_moves(position, from, Landings::full());
        moves.add_board(from, found.plain, found.promoted)?;
    }
    Ok(())
}

// Adds the legal drops.
fn add_drops(moves: &mut Moves, guard: &Guard, position: &Position) -> Result<(), AllocError>
    requires guard { IsGuardOf position.now guard.now }
    requires quiet { IsQuiet position.now }
    requires before { Lists (IsEvasionBefore (other position.now.side) position.now 13122) moves.old }
    ensures { OnOk result (Lists (IsEvasion (other position.now.side) position.now) moves.new) }
{
    // No two moves have one place in the order, and no two kinds one place in theirs; and no king
    // is in hand.
    order_laws();
    value_laws();
    position.laws();
    for kind in Kind::IN_HAND {
        moves.add_drops(kind, guard.drops(position, kind, Mask::full()))?;
    }
    Ok(())
}

/// Makes the list that of the evasions at a position: exactly the legal moves of the problem's
/// defender, each once, in the order of moves; none where the defender isn't to move. It takes
/// memory only where the list has no room. Errors: want of memory alone; the list isn't to be used
/// then.
///
/// The side not to move must not be in check. (The tsume rule: the defender may make any legal
/// move.)
pub fn answers_into(
    problem: &Problem,
    position: &Position,
    moves: &mut Moves,
) -> Result<(), AllocError>
    requires { IsQuiet position.now }
    ensures { OnOk result (Lists (IsEvasion problem.now.position.side position.now) moves.new) }
{
    moves.clear();
    if position.side() == problem.attacker() {
        return Ok(());
    }
    let guard = Guard::of(position);
    add_board_moves(moves, &guard, position)?;
    add_drops(moves, &guard, position)
}

/// The evasions at a position, as [`answers_into`] lists them. Errors: want of memory alone.
///
/// The side not to move must not be in check. (The tsume rule: the defender may make any legal
/// move.)
pub fn answers(alloc: Global, problem: &Problem, position: &Position) -> Result<Moves, AllocError>
    requires { IsQuiet position.now }
    ensures { IfOk result (λ moves. Lists (IsEvasion problem.now.position.side position.now) moves) }
{
    let mut moves = Moves::new(alloc);
    answers_into(problem, position, &mut moves)?;
    Ok(moves)
}
