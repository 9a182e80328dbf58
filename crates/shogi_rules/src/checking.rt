// Attack and check.
ghost use Rattle.std.specs.Prelude.{◌≡◌, ◌<◌, ◌↔◌, ℕ, IsTrue, IsSomeAnd};
ghost use Rattle.bit_boards.specs.Mask.{Holds};
ghost use Rattle.bit_boards.specs.Movement.{fits};
ghost use Rattle.board_core.specs.Board.{kings_of, piece_at};
ghost use Rattle.shogi_rules.specs.Rules.{AttacksFrom, Attacks, IsInCheck};

use crate::movement::reaches;
use bit_boards::{Mask, around, lines, mask_laws};
use board_core::{Position, Side, Square};

fn attacks_from(position: &Position, side: Side, from: Square, to: Square) -> bool
    ensures { IsTrue result ↔ AttacksFrom position.now.cells side from.number to.number }
{
    match position.piece_at(from) {
        Some(piece) => piece.side == side && reaches(position, piece, from, to),
        None => false,
    }
}

/// Squares with pieces of a side, among them all whose piece would go to the square on an empty
/// board: those near it, and of pieces that slide those on its lines. Takes no memory. (Rules of
/// shogi: movement of the pieces.)
pub fn candidates(position: &Position, side: Side, to: Square) -> Mask
    ensures { (from : ℕ) → from < 81
        → IsSomeAnd (piece_at position.now.cells from) (λ piece. (piece.side ≡ side)
        × IsTrue (fits piece from to.number)) → Holds result from }
{
    // A step goes to a near square, and a slide along a line.
    mask_laws();
    let sliding = lines(to).and(position.sliders());
    around(to).or(sliding).and(position.occupied(side))
}

fn attacks(position: &Position, side: Side, to: Square) -> bool
    ensures { IsTrue result ↔ Attacks position.now.cells side to.number }
{
    let mut left = candidates(position, side, to);
    while let Some(from) = left.pop_first() {
        if attacks_from(position, side, from, to) {
            return true;
        }
    }
    false
}

/// Whether a piece of `by` attacks the square: it would reach it by one step or slide, whatever
/// stands there. Takes no memory. (Rules of shogi: movement of the pieces.)
pub fn attacked(position: &Position, square: Square, by: Side) -> bool
    ensures { IsTrue result ↔ Attacks position.now.cells by square.number }
{
    attacks(position, by, square)
}

/// Whether the side is in check: its king is attacked by the other side. A side without a king
/// never is. Takes no memory. (Rules of shogi: check.)
pub fn in_check(position: &Position, side: Side) -> bool
    ensures check { IsTrue result ↔ IsInCheck position.now.cells side }

    // A side without a king is never in check.
    ensures king { IsTrue result → 0 < kings_of position.now side }
{
    match position.king_square(side) {
        Some(square) => attacks(position, side.other(), square),
        None => false,
    }
}
