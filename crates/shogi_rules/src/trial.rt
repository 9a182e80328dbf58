//! The plain lists of moves: every move is tried by the rules. Slow and simple, they stay as the
//! yardstick that faster lists are compared with.
ghost use Rattle.std.specs.Prelude.{◌≡◌, ◌<◌, ◌+◌, ◌*◌, ◌↔◌, IsTrue, IfOk, OnOk};
ghost use Rattle.bit_boards.specs.Kind.{place_of};
ghost use Rattle.board_core.specs.Order.{order_of, Lists};
ghost use Rattle.shogi_rules.specs.Rules.{IsQuiet};
ghost use Rattle.shogi_rules.specs.Tsume.{IsCheck, IsEvasion};
ghost use Rattle.shogi_rules.specs.Trial.{IsWanted, IsWantedBefore};

use crate::legality::{has_in_hand, owns};
use crate::problem::Problem;
use crate::tsume::{is_check, is_evasion};
use board_core::{Kind, Move, Position, Square, order_laws, value_laws};
use std::alloc::{AllocError, Global};

/// What a list is to hold.
#[derive(Clone, Copy)]
enum Wanted {
    Checks,
    Evasions,
}

fn is_wanted(wanted: Wanted, problem: &Problem, position: &Position, by: Move) -> bool
    requires { IsQuiet position.now }
    ensures { IsTrue result ↔ IsWanted wanted problem.now.position.side position.now by }
{
    match wanted {
        Wanted::Checks => is_check(problem, position, by),
        Wanted::Evasions => is_evasion(problem, position, by),
    }
}

fn board_move(from: Square, code: u8) -> Move
    requires { code < 162 }
    ensures { order_of result ≡ 162 * from.number + code }
{
    Move::Board {
        from,
        to: Square { number: code / 2 },
        promote: code % 2 == 1,
    }
}

// Adds the wanted moves from a square.
fn add_from(
    moves: &mut Vec<Move>,
    wanted: Wanted,
    problem: &Problem,
    position: &Position,
    from: Square,
) -> Result<(), AllocError>
    requires quiet { IsQuiet position.now }
    requires before { Lists
        (IsWantedBefore wanted problem.now.position.side position.now (162 * from.number))
        moves.old.items }
    ensures { OnOk result
        (Lists (IsWantedBefore wanted problem.now.position.side position.now
        (162 * from.number + 162)) moves.new.items) }
{
    // No two moves have one place in the order.
    order_laws();
    if !owns(position, from) {
        return Ok(());
    }
    for code in 0..162u8 {
        let by = board_move(from, code);
        if is_wanted(wanted, problem, position, by) {
            moves.push(by)?;
        }
    }
    Ok(())
}

// Adds the wanted drops of a kind.
fn add_drops(
    moves: &mut Vec<Move>,
    wanted: Wanted,
    problem: &Problem,
    position: &Position,
    kind: Kind,
) -> Result<(), AllocError>
    requires quiet { IsQuiet position.now }
    requires before { Lists
        (IsWantedBefore wanted problem.now.position.side position.now (13122 + 81 * place_of kind))
        moves.old.items }
    ensures { OnOk result
        (Lists (IsWantedBefore wanted problem.now.position.side position.now
        (13122 + 81 * place_of kind + 81)) moves.new.items) }
{
    // No two moves have one place in the order, and no two kinds one place in theirs.
    order_laws();
    value_laws();
    if !has_in_hand(position, kind) {
        return Ok(());
    }
    for number in 0..81u8 {
        let by = Move::Drop {
            kind,
            to: Square { number },
        };
        if is_wanted(wanted, problem, position, by) {
            moves.push(by)?;
        }
    }
    Ok(())
}

// All wanted moves.
fn wanted_moves(
    alloc: Global,
    wanted: Wanted,
    problem: &Problem,
    position: &Position,
) -> Result<Vec<Move>, AllocError>
    requires { IsQuiet position.now }
    ensures { IfOk result
        (λ moves. Lists (IsWanted wanted problem.now.position.side position.now) moves.items) }
{
    // There are 13,770 places in the order.
    order_laws();
    let mut moves = Vec::new(alloc);
    for number in 0..81u8 {
        add_from(&mut moves, wanted, problem, position, Square { number })?;
    }
    for kind in Kind::ALL {
        add_drops(&mut moves, wanted, problem, position, kind)?;
    }
    Ok(moves)
}

/// The checks at a position: exactly the legal moves of the problem's attacker after which the
/// defender's king is attacked, each once, in the order of moves; none where the attacker isn't to
/// move. Errors: want of memory alone.
///
/// The side not to move must not be in check. (The tsume rule: each move of the attacker is a
/// check.)
pub fn trial_checks(
    alloc: Global,
    problem: &Problem,
    position: &Position,
) -> Result<Vec<Move>, AllocError>
    requires { IsQuiet position.now }
    ensures { IfOk result
        (λ moves. Lists (IsCheck problem.now.position.side position.now) moves.items) }
{
    wanted_moves(alloc, Wanted::Checks, problem, position)
}

/// The evasions at a position: exactly the legal moves of the problem's defender, each once, in the
/// order of moves; none where the defender isn't to move. Errors: want of memory alone.
///
/// The side not to move must not be in check. (The tsume rule: the defender may make any legal
/// move.)
pub fn trial_evasions(
    alloc: Global,
    problem: &Problem,
    position: &Position,
) -> Result<Vec<Move>, AllocError>
    requires { IsQuiet position.now }
    ensures { IfOk result
        (λ moves. Lists (IsEvasion problem.now.position.side position.now) moves.items) }
{
    wanted_moves(alloc, Wanted::Evasions, problem, position)
}
