// How many checks there are.
ghost use Rattle.std.specs.Prelude.{◌≡◌, ◌<◌, ◌≤◌, ◌+◌, ℕ, List, length};
ghost use Rattle.board_core.specs.declared.moves.Move.{Move};
ghost use Rattle.board_core.specs.Order.{Lists};
ghost use Rattle.shogi_rules.specs.Rules.{IsQuiet};
ghost use Rattle.shogi_rules.specs.Tsume.{IsCheck};
ghost use Rattle.check_moves.specs.Aim.{IsAimOf};
ghost use Rattle.check_moves.specs.Before.{AreChecksBefore};

use crate::aim::Aim;
use board_core::{Kind, Position, order_laws};
use shogi_rules::{Problem, legal_laws};

// How many checks there are by pieces on the board.
fn count_board_checks(aim: &Aim, position: &Position) -> u32
    requires aim { IsAimOf position.now aim.now }
    requires quiet { IsQuiet position.now }
    ensures are { AreChecksBefore position.now 13122 result }
    ensures to { result ≤ 13122 }
{
    // No two moves have one place in the order, and a legal move is one of an own piece.
    order_laws();
    legal_laws();
    let mut count = 0;
    let mut left = position.occupied(position.side());
    while let Some(from) = left.pop_first() {
        let found = aim.board_checks(position, from);
        count += u32::from(found.plain.len()) + u32::from(found.promoted.len());
    }
    count
}

// How many checks there are by drops.
fn count_drop_checks(aim: &Aim, position: &Position) -> u32
    requires aim { IsAimOf position.now aim.now }
    requires quiet { IsQuiet position.now }
    ensures are { (before : ℕ) → AreChecksBefore position.now 13122 before
        → AreChecksBefore position.now 13689 (before + result) }
    ensures to { result ≤ 567 }
{
    // No two moves have one place in the order.
    order_laws();
    let mut count = 0;
    for kind in Kind::IN_HAND {
        count += u32::from(aim.drop_checks(position, kind).len());
    }
    count
}

/// How many checks there are at a position: as many as [`checks_into`](crate::checks_into) lists;
/// none where the attacker isn't to move. Takes no memory.
///
/// The side not to move must not be in check. (The tsume rule: each move of the attacker is a
/// check.)
pub fn count_checks(problem: &Problem, position: &Position) -> u32
    requires { IsQuiet position.now }
    ensures count { (moves : List Move)
        → Lists (IsCheck problem.now.position.side position.now) moves → result ≡ length moves }
    ensures to { result ≤ 13770 }
{
    // No two moves have one place in the order, what every position keeps holds of this one, and
    // what a legal move has is known.
    order_laws();
    position.laws();
    legal_laws();
    if position.side() != problem.attacker() {
        return 0;
    }
    match position.king_square(position.side().other()) {
        Some(king) => {
            let aim = Aim::of(position, king);
            count_board_checks(&aim, position) + count_drop_checks(&aim, position)
        }
        None => 0,
    }
}
