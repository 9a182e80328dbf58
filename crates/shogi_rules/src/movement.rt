// How pieces move over what stands between.
ghost use Rattle.std.specs.Prelude.{◌↔◌, IsTrue};
ghost use Rattle.shogi_rules.specs.Rules.{IsClear, Reaches};

use bit_boards::{between, fits};
use board_core::{Piece, Position, Square};

/// Whether every square strictly between the two is empty.
pub(crate) fn is_clear(position: &Position, from: Square, to: Square) -> bool
    ensures { IsTrue result ↔ IsClear position.now.cells from.number to.number }
{
    between(from, to).and(position.all_occupied()).is_empty()
}

/// Whether the piece reaches the one square from the other.
pub(crate) fn reaches(position: &Position, piece: Piece, from: Square, to: Square) -> bool
    ensures { IsTrue result ↔ Reaches position.now.cells piece from.number to.number }
{
    fits(piece, from, to) && is_clear(position, from, to)
}
