// Pieces to codes, and back.
ghost use Rattle.std.specs.Prelude.{true, false, ◌≡◌, ◌≤◌, ◌+◌};
ghost use Rattle.board_core.specs.Board.{piece_at};
ghost use Rattle.board_core.specs.Key.{kind_code, side_code, code_of};
ghost use Rattle.board_core.specs.Code.{piece_in, cell_in, cells_of};

use crate::code::Code;
use crate::{Kind, Piece, Side, Square};

/// What stands on each square, by its number.
pub(crate) type Codes = [Code; 81];

// How much more the code of the promoted side is than that of the kind.
fn promotion(kind: Kind) -> u8
    ensures added { kind_code true kind ≡ kind_code false kind + result }
    ensures small { result ≤ 8 }
{
    match kind {
        Kind::Gold | Kind::King => 0,
        Kind::Bishop | Kind::Rook => 7,
        _ => 8,
    }
}

// The code of a kind, as Black's.
fn own_code(kind: Kind) -> u8
    ensures code { result ≡ kind_code false kind }
    ensures small { result ≤ 8 }
{
    kind.place() + 1
}

// The code of a kind, or of its promoted side, as Black's.
fn kind_code(promoted: bool, kind: Kind) -> u8
    ensures code { result ≡ kind_code promoted kind }
    ensures small { result ≤ 14 }
{
    let plain = own_code(kind);
    if promoted {
        plain + promotion(kind)
    } else {
        plain
    }
}

// How much more than Black's code a side's code is.
fn side_code(side: Side) -> u8
    ensures code { result ≡ side_code side }
    ensures small { result ≤ 14 }
{
    match side {
        Side::Black => 0,
        Side::White => 14,
    }
}

// A side's piece of a code, as Black's codes are.
fn piece_in(code: u8, side: Side) -> Option<Piece>
    ensures { result ≡ piece_in code side }
{
    match code {
        1 => Some(Piece::plain(Kind::Pawn, side)),
        2 => Some(Piece::plain(Kind::Lance, side)),
        3 => Some(Piece::plain(Kind::Knight, side)),
        4 => Some(Piece::plain(Kind::Silver, side)),
        5 => Some(Piece::plain(Kind::Gold, side)),
        6 => Some(Piece::plain(Kind::Bishop, side)),
        7 => Some(Piece::plain(Kind::Rook, side)),
        8 => Some(Piece::plain(Kind::King, side)),
        9 => Some(Piece {
            kind: Kind::Pawn,
            promoted: true,
            side,
        }),
        10 => Some(Piece {
            kind: Kind::Lance,
            promoted: true,
            side,
        }),
        11 => Some(Piece {
            kind: Kind::Knight,
            promoted: true,
            side,
        }),
        12 => Some(Piece {
            kind: Kind::Silver,
            promoted: true,
            side,
        }),
        13 => Some(Piece {
            kind: Kind::Bishop,
            promoted: true,
            side,
        }),
        14 => Some(Piece {
            kind: Kind::Rook,
            promoted: true,
            side,
        }),
        _ => None,
    }
}

impl Code {
    /// The code of what a square holds.
    pub fn of(cell: Option<Piece>) -> Code
        ensures { result.number ≡ code_of cell }
    {
        match cell {
            None => Code { number: 0 },
            Some(piece) => Code {
                number: kind_code(piece.promoted, piece.kind) + side_code(piece.side),
            },
        }
    }

    /// What a square of the code holds.
    pub fn cell(self) -> Option<Piece>
        ensures { result ≡ cell_in self.number }
    {
        if self.number > 14 {
            piece_in(self.number - 14, Side::White)
        } else {
            piece_in(self.number, Side::Black)
        }
    }
}

/// What stands on a square.
pub(crate) fn at(codes: &Codes, square: Square) -> Option<Piece>
    ensures { result ≡ piece_at (cells_of codes.now) square.number }
{
    codes[square.number as usize].cell()
}

/// The codes of these cells.
pub(crate) fn codes_of(cells: &[Option<Piece>; 81]) -> Codes
    ensures { cells_of result ≡ cells.now }
{
    let mut codes = [Code { number: 0 }; 81];
    for square in 0..81 {
        codes[square] = Code::of(cells[square]);
    }
    codes
}
