// Pieces on squares.
ghost use Rattle.std.specs.Prelude.{◌≡◌, Some};
ghost use Rattle.bit_boards.specs.Piece.{plain_piece, is_dead};

use crate::{Kind, Piece, Side, Square};

impl Piece {
    /// A side's piece of a kind, unpromoted.
    pub fn plain(kind: Kind, side: Side) -> Piece
        ensures { result ≡ plain_piece kind side }
    {
        Piece {
            kind,
            promoted: false,
            side,
        }
    }

    /// Whether it could never move again from the square: an unpromoted pawn or lance on its last
    /// row, an unpromoted knight on its last two (rules of shogi: forced promotion, and drops
    /// without a move).
    pub fn is_dead_on(self, square: Square) -> bool
        ensures { result ≡ is_dead square.number (Some self) }
    {
        !self.promoted && square.height(self.side) + self.kind.rows_needed() > 8
    }
}
