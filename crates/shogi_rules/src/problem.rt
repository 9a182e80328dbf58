// Problems of tsume-shogi.
ghost use Rattle.std.specs.Prelude.{◌≡◌, ◌↔◌, IfOk, IsErr};
ghost use Rattle.bit_boards.specs.Kind.{other};
ghost use Rattle.board_core.specs.Board.{HasDefender};
ghost use Rattle.shogi_rules.specs.Rules.{IsInCheck};
ghost use Rattle.shogi_rules.specs.Tsume.{IsProblem};

use crate::checking::in_check;
use board_core::{Position, Side};

/// A problem can't be accepted: the defender's king is attacked though the attacker is to move.
#[derive(Clone, Copy, PartialEq, Eq, Debug)]
pub struct DefenderInCheck;

/// A tsume problem: a position whose side to move is the attacker. It keeps that the defender, the
/// side not to move, has a king, and isn't in check.
#[derive(Clone, Copy)]
pub struct Problem {
    /// The position that the attacker has to solve.
    pub position: Position,
    pub ghost accepted: { IsProblem position },
}

impl Problem {
    /// The attacker: the side to move in the problem's position.
    pub fn attacker(&self) -> Side
        ensures { result ≡ self.now.position.side }
    {
        self.position.side()
    }
}

/// Takes a position whose side not to move has a king, as it has after [`Position::build`], for a
/// problem; refuses it exactly where that side is in check. Takes no memory.
pub fn accept_problem(position: Position) -> Result<Problem, DefenderInCheck>
    requires { HasDefender position }
    ensures ok { IfOk result (λ problem. problem.position ≡ position) }
    ensures err { IsErr result ↔ IsInCheck position.cells (other position.side) }
{
    if in_check(&position, position.side().other()) {
        return Err(DefenderInCheck);
    }
    Ok(Problem { position })
}
