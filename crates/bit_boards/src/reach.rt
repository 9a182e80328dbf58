// Single steps and knight's jumps.
ghost use Rattle.std.specs.Prelude.{◌≡◌, ◌<◌, ◌/◌, ◌&&◌, ℕ, nat_lt};
ghost use Rattle.bit_boards.specs.Mask.{holds};
ghost use Rattle.bit_boards.specs.Movement.{steps as steps_of, distance, goes_by_step, are_near};
ghost use Rattle.bit_boards.specs.Square.{height};

use crate::gait::{Gait, row_of};
use crate::tables::{AROUND, STEPS};
use crate::{Kind, Mask, Piece, Side, Square};

fn steps_for(side: Side, kind: Kind, promoted: bool, from: Square) -> Mask
    ensures { (to : ℕ) → holds result to ≡ (nat_lt to 81
        && steps_of kind promoted (distance (from.number / 9) (to / 9)) (height side from.number)
        (height side to)) }
{
    let gait = Gait::of(kind, promoted).row() as usize;
    Mask {
        bits: STEPS[row_of(side) as usize][gait][from.number as usize],
    }
}

/// The squares to which a piece goes from a square by a single step or a knight's jump. (Rules of
/// shogi: movement of the pieces.)
pub fn steps(piece: Piece, from: Square) -> Mask
    ensures { (to : ℕ) → holds result to ≡ (nat_lt to 81 && goes_by_step piece from.number to) }
{
    steps_for(piece.side, piece.kind, piece.promoted, from)
}

/// The squares from which a piece goes to a square by a single step or a knight's jump.
pub fn steps_to(piece: Piece, to: Square) -> Mask
    ensures { (from : ℕ) → holds result from
        ≡ (nat_lt from 81 && goes_by_step piece from to.number) }
{
    steps_for(piece.side.other(), piece.kind, piece.promoted, to)
}

/// The neighbours of a square, and the four squares two rows and a file away: those from which some
/// piece could step or jump to it.
pub fn around(square: Square) -> Mask
    ensures { (s : ℕ) → holds result s ≡ (nat_lt s 81 && are_near square.number s) }
{
    Mask {
        bits: AROUND[square.number as usize],
    }
}
