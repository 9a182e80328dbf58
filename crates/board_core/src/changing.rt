// How the sets change with one square.
ghost use Rattle.std.specs.Prelude.{◌≡◌, ◌==◌, ℕ, Option, None, if◌then◌else◌};
ghost use Rattle.bit_boards.specs.Mask.{holds};
ghost use Rattle.bit_boards.specs.declared.piece.Piece.{Piece};
ghost use Rattle.board_core.specs.Board.{piece_at};
ghost use Rattle.board_core.specs.Sets.{AreSetsOf, is_of_side, is_king, is_pawn, is_slider};

use crate::scan::{at, is_king, is_of_side, is_pawn, is_slider};
use crate::sets::Sets;
use crate::{Piece, Side, Square};
use bit_boards::Mask;

// The set with the square where that is wanted, and without it else.
fn changed(mask: Mask, square: Square, wanted: bool) -> Mask
    ensures { (s : ℕ) → holds result s ≡ (if s == square.number then wanted else holds mask s) }
{
    if wanted {
        mask.with(square)
    } else {
        mask.without(square)
    }
}

impl Sets {
    /// The sets of an empty board.
    pub fn empty() -> Sets
        ensures { AreSetsOf result (λ _. None) }
    {
        Sets {
            black: Mask::empty(),
            white: Mask::empty(),
            kings: Mask::empty(),
            pawns: Mask::empty(),
            sliders: Mask::empty(),
        }
    }

    /// The sets after this is put in a square's place.
    pub fn with(self, square: Square, cell: Option<Piece>) -> Sets
        ensures { (at : ℕ → Option Piece) → AreSetsOf self at
            → AreSetsOf result (λ s. if s == square.number then cell else at s) }
    {
        Sets {
            black: changed(self.black, square, is_of_side(Side::Black, cell)),
            white: changed(self.white, square, is_of_side(Side::White, cell)),
            kings: changed(self.kings, square, is_king(cell)),
            pawns: changed(self.pawns, square, is_pawn(cell)),
            sliders: changed(self.sliders, square, is_slider(cell)),
        }
    }

    /// The sets after this is put on a square that is empty until then.
    fn filled(self, square: Square, cell: Option<Piece>) -> Sets
        ensures { (at : ℕ → Option Piece) → AreSetsOf self at → at square.number ≡ None
            → AreSetsOf result (λ s. if s == square.number then cell else at s) }
    {
        match cell {
            Some(piece) => self.with(square, Some(piece)),
            None => self,
        }
    }

    /// The sets of these cells.
    pub fn of(cells: &[Option<Piece>; 81]) -> Sets
        ensures { AreSetsOf result (piece_at cells.now) }
    {
        let mut sets = Sets::empty();
        for number in 0..81 {
            sets = sets.filled(Square { number }, at(cells, number));
        }
        sets
    }
}
