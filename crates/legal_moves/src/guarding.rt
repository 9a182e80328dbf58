// How a guard is made.
ghost use Rattle.std.specs.Prelude.{◌≡◌, ◌<◌, ℕ, true};
ghost use Rattle.board_core.specs.Board.{piece_at, is_king_of};
ghost use Rattle.legal_moves.specs.Legal.{IsGuardOf};

use crate::guard::Guard;
use attack_lines::{attackers, blocks, shields};
use bit_boards::{Mask, mask_laws};
use board_core::{Position, Square};

fn guard_of(position: &Position, king: Square) -> Guard
    requires here { is_king_of position.now.side (piece_at position.now.cells king.number) ≡ true }
    requires only { (square : ℕ)
        → is_king_of position.now.side (piece_at position.now.cells square) ≡ true → square
        ≡ king.number }
    ensures { IsGuardOf position.now result }
{
    // Sets hold nothing but squares of the board.
    mask_laws();
    let by = position.side().other();
    Guard {
        king: Some(king),
        blocks: blocks(attackers(position, king, by), king),
        shields: shields(position, king, by),
    }
}

impl Guard {
    /// The guard of the side to move. Takes no memory.
    pub fn of(position: &Position) -> Guard
        ensures { IsGuardOf position.now result }
    {
        match position.king_square(position.side()) {
            Some(king) => guard_of(position, king),
            None => Guard {
                king: None,
                blocks: Mask::full(),
                shields: Mask::empty(),
            },
        }
    }
}
