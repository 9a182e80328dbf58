// How many answers there are.
ghost use Rattle.std.specs.Prelude.{◌≡◌, ◌≤◌, List};
ghost use Rattle.board_core.specs.declared.moves.Move.{Move};
ghost use Rattle.board_core.specs.Order.{Lists};
ghost use Rattle.shogi_rules.specs.Rules.{IsQuiet};
ghost use Rattle.shogi_rules.specs.Tsume.{IsEvasion};
ghost use Rattle.legal_moves.specs.Legal.{IsGuardOf};
ghost use Rattle.start_def.specs.Answers.{answers_of};
ghost use Rattle.evasions.specs.Before.{AreEvasionsBefore, AreDropSquares};

use bit_boards::Mask;
use board_core::{Kind, Position, order_laws, value_laws};
use legal_moves::{Guard, Landings};
use shogi_rules::Problem;

// How many legal moves on the board there are.
fn count_board_moves(guard: &Guard, position: &Position) -> u32
    requires guard { IsGuardOf position.now guard.now }
    ensures are { AreEvasionsBefore position.now 13122 result }
    ensures to { result ≤ 13122 }
{
    // No two moves have one place in the order.
    order_laws();
    let mut count = 0;
    let mut left = guard.movers(position);
    while let Some(from) = left.pop_first() {
        let found = guard.board_moves(position, from, Landings::full());
        count += u32::from(found.plain.len()) + u32::from(found.promoted.len());
    }
    count
}

// The squares on which some piece in hand may be dropped.
fn drop_squares(guard: &Guard, position: &Position) -> Mask
    requires guard { IsGuardOf position.now guard.now }
    requires quiet { IsQuiet position.now }
    ensures { AreDropSquares position.now 7 result }
{
    // No two kinds have one place in the order of kinds.
    value_laws();
    let mut squares = Mask::empty();
    for kind in Kind::IN_HAND {
        squares = squares.or(guard.drops(position, kind, Mask::full()));
    }
    squares
}

/// How many answers the defender has at a position: the evasions on the board, and the squares on
/// which he may drop, drops on one square counted once; none where the defender isn't to move. So
/// it is fewer than [`answers`](crate::answers) lists where two drops fall on one square. Takes no
/// memory.
///
/// The side not to move must not be in check. (The tsume rule: the defender may make any legal
/// move. Drops on one square between the king and a piece that checks from afar are one task for
/// whoever wants to mate.)
pub fn count_answers(problem: &Problem, position: &Position) -> u32
    requires { IsQuiet position.now }
    ensures count { (moves : List Move)
        → Lists (IsEvasion problem.now.position.side position.now) moves → result
        ≡ answers_of moves }
    ensures to { result ≤ 13770 }
{
    // No two moves have one place in the order of moves, and no king is in hand.
    order_laws();
    position.laws();
    if position.side() == problem.attacker() {
        return 0;
    }
    let guard = Guard::of(position);
    count_board_moves(&guard, position) + u32::from(drop_squares(&guard, position).len())
}
