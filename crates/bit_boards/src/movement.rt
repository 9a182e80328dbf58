// How pieces move on an empty board.
ghost use Rattle.std.specs.Prelude.{◌≡◌, ◌<◌};
ghost use Rattle.bit_boards.specs.Movement.{fits};
ghost use Rattle.bit_boards.specs.Going.{place_in};

use crate::gait::row_of;
use crate::tables::GOING;
use crate::{Piece, Square};

// The piece's bit in the table.
fn place(piece: Piece) -> u8
    ensures place { result ≡ place_in piece }
    ensures small { result < 32 }
{
    16 * row_of(piece.side) + 8 * (piece.promoted as u8) + piece.kind.place()
}

/// Whether on an empty board the piece goes from the one square to the other, by a step, a jump or
/// a slide. (Rules of shogi: movement of the pieces.)
pub fn fits(piece: Piece, from: Square, to: Square) -> bool
    ensures { result ≡ fits piece from.number to.number }
{
    let files = to.number / 9 + 8 - from.number / 9;
    let rows = to.number % 9 + 8 - from.number % 9;
    GOING[files as usize][rows as usize] >> place(piece) & 1 == 1
}
