// The moves of tsume-shogi: checks of the attacker, evasions of the defender.
ghost use Rattle.std.specs.Prelude.{◌↔◌, IsTrue};
ghost use Rattle.shogi_rules.specs.Rules.{IsQuiet};
ghost use Rattle.shogi_rules.specs.Tsume.{IsCheck, IsEvasion};

use crate::checking::in_check;
use crate::legality::legal;
use crate::moving::apply;
use crate::problem::Problem;
use board_core::{Move, Position, Side};

fn gives_check(attacker: Side, position: &Position, by: Move) -> bool
    requires { IsQuiet position.now }
    ensures { IsTrue result ↔ IsCheck attacker position.now by }
{
    if position.side() != attacker {
        return false;
    }
    if legal(position, by).is_err() {
        return false;
    }
    in_check(&apply(position, by), attacker.other())
}

fn evades(attacker: Side, position: &Position, by: Move) -> bool
    requires { IsQuiet position.now }
    ensures { IsTrue result ↔ IsEvasion attacker position.now by }
{
    if position.side() != attacker.other() {
        return false;
    }
    legal(position, by).is_ok()
}

/// Whether the move is a check of the problem's attacker: it is he who moves, the move is legal,
/// and after it the defender's king is attacked. Takes no memory.
///
/// The side not to move must not be in check. (The tsume rule: each move of the attacker is a
/// check.)
pub fn is_check(problem: &Problem, position: &Position, by: Move) -> bool
    requires { IsQuiet position.now }
    ensures { IsTrue result ↔ IsCheck problem.now.position.side position.now by }
{
    gives_check(problem.attacker(), position, by)
}

/// Whether the move is an evasion of the problem's defender: it is he who moves, and the move is
/// legal. Takes no memory.
///
/// The side not to move must not be in check. (The tsume rule: the defender may make any legal
/// move.)
pub fn is_evasion(problem: &Problem, position: &Position, by: Move) -> bool
    requires { IsQuiet position.now }
    ensures { IsTrue result ↔ IsEvasion problem.now.position.side position.now by }
{
    evades(problem.attacker(), position, by)
}
