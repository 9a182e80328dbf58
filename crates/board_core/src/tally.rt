// How many of each kind stand on a board, found in one pass over its 81 cells.
ghost use Rattle.std.specs.Prelude.{◌≡◌, ◌≢◌, ◌<◌, ◌+◌, Option, count_by};
ghost use Rattle.board_core.specs.Board.{hand_count, by_side, is_of_kind, is_king_of, one_if};
ghost use Rattle.bit_boards.specs.declared.piece.Kind.{Kind};
ghost use Rattle.bit_boards.specs.declared.piece.Kind.TheVariants.{King};
ghost use Rattle.bit_boards.specs.declared.piece.Side.{Side};
ghost use Rattle.bit_boards.specs.declared.piece.Side.TheVariants.{Black, White};

use crate::scan::at;
use crate::{Hand, Kind, Piece, Side};

/// What stands in cells: how many of each kind but the king, promoted or not, of both sides, and
/// how many kings of each side.
#[derive(Clone, Copy, Debug)]
pub(crate) struct Tally {
    pub kinds: Hand,
    pub black_kings: u8,
    pub white_kings: u8,
}

impl Tally {
    /// What stands in these cells.
    pub fn of(cells: &[Option<Piece>; 81]) -> Tally
        ensures kinds { (k : Kind) → k ≢ King → hand_count result.kinds k
            ≡ count_by (is_of_kind k) cells.now }
        ensures kings { (side : Side) → by_side side result.black_kings result.white_kings
            ≡ count_by (is_king_of side) cells.now }
    {
        let mut tally = Tally {
            kinds: Hand::empty(),
            black_kings: 0,
            white_kings: 0,
        };
        for number in 0..81 {
            tally = tally.with(at(cells, number));
        }
        tally
    }

    // The same with what one more cell holds.
    fn with(self, cell: Option<Piece>) -> Tally
        requires kinds { (k : Kind) → k ≢ King → hand_count self.kinds k < 255 }
        requires black { self.black_kings < 255 }
        requires white { self.white_kings < 255 }
        ensures kinds { (k : Kind) → k ≢ King → hand_count result.kinds k
            ≡ hand_count self.kinds k + one_if (is_of_kind k cell) }
        ensures black { result.black_kings ≡ self.black_kings + one_if (is_king_of Black cell) }
        ensures white { result.white_kings ≡ self.white_kings + one_if (is_king_of White cell) }
    {
        self.kinds.laws();
        let mut tally = self;
        if let Some(piece) = cell {
            match piece.kind {
                Kind::King => match piece.side {
                    Side::Black => tally.black_kings += 1,
                    Side::White => tally.white_kings += 1,
                },
                kind => {
                    let kinds = self.kinds.plus(kind);
                    tally.kinds = kinds;
                }
            }
        }
        tally
    }
}

/// Of two numbers the side's own.
pub(crate) fn by_side(side: Side, black: u8, white: u8) -> u8
    ensures { result ≡ by_side side black white }
{
    match side {
        Side::Black => black,
        Side::White => white,
    }
}
