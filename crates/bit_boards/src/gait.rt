// How pieces step, besides their slides.
ghost use Rattle.std.specs.Prelude.{◌≡◌};
ghost use Rattle.bit_boards.specs.Gait.{gait_of, row_of_gait, row_of_side};

use crate::{Kind, Side};

/// The ways in which pieces step, in the order of the tables.
#[derive(Clone, Copy)]
pub(crate) enum Gait {
    /// No steps: lance, bishop and rook only slide.
    Still,
    Pawn,
    Knight,
    Silver,
    /// The promoted pawn, lance, knight and silver too.
    Gold,
    King,
    /// The promoted bishop: one along a file or a row.
    Cross,
    /// The promoted rook: one diagonally.
    Corners,
}

use Gait::{Corners, Cross, Gold, King, Knight, Pawn, Silver, Still};

// The gaits of the eight kinds, and of their promoted sides.
static GAITS: [[Gait; 8]; 2] = [
    [Pawn, Still, Knight, Silver, Gold, Still, Still, King],
    [Gold, Gold, Gold, Gold, Gold, Cross, Corners, King],
];

impl Gait {
    /// The gait of a kind, promoted or not.
    pub(crate) fn of(kind: Kind, promoted: bool) -> Gait
        ensures { result ≡ gait_of kind promoted }
    {
        GAITS[promoted as usize][kind.place() as usize]
    }

    /// Its row in the tables.
    pub(crate) fn row(self) -> u8
        ensures { result ≡ row_of_gait self }
    {
        match self {
            Still => 0,
            Pawn => 1,
            Knight => 2,
            Silver => 3,
            Gold => 4,
            King => 5,
            Cross => 6,
            Corners => 7,
        }
    }
}

/// The side's row in the tables.
pub(crate) fn row_of(side: Side) -> u8
    ensures { result ≡ row_of_side side }
{
    match side {
        Side::Black => 0,
        Side::White => 1,
    }
}
