// Looks through the 81 cells of a board.
ghost use Rattle.std.specs.Prelude.{◌≡◌, ◌<◌, ◌≤◌, ℕ, None, IfSome, true, false};
ghost use Rattle.bit_boards.specs.Kind.{same_kind, same_side};
ghost use Rattle.bit_boards.specs.Piece.{is_dead};
ghost use Rattle.board_core.specs.Sets.{is_of_side, is_king, is_pawn, is_slider};
ghost use Rattle.board_core.specs.Board.{piece_at, is_of_kind, is_pawn_of};

use crate::{Kind, Piece, Side, Square};

fn same_kind(one: Kind, two: Kind) -> bool
    ensures { result ≡ same_kind one two }
{
    one.place() == two.place()
}

fn same_side(one: Side, two: Side) -> bool
    ensures { result ≡ same_side one two }
{
    match (one, two) {
        (Side::Black, Side::Black) | (Side::White, Side::White) => true,
        _ => false,
    }
}

/// Whether a piece of the kind, promoted or not, of either side, stands in the cell.
pub(crate) fn is_of_kind(kind: Kind, cell: Option<Piece>) -> bool
    ensures { result ≡ is_of_kind kind cell }
{
    match cell {
        Some(piece) => same_kind(piece.kind, kind),
        None => false,
    }
}

fn is_pawn_of(side: Side, cell: Option<Piece>) -> bool
    ensures { result ≡ is_pawn_of side cell }
{
    match cell {
        Some(piece) => {
            same_kind(piece.kind, Kind::Pawn) && !piece.promoted && same_side(piece.side, side)
        }
        None => false,
    }
}

/// Whether a piece of the side stands in the cell.
pub(crate) fn is_of_side(side: Side, cell: Option<Piece>) -> bool
    ensures { result ≡ is_of_side side cell }
{
    match cell {
        Some(piece) => same_side(piece.side, side),
        None => false,
    }
}

/// Whether a king stands in the cell.
pub(crate) fn is_king(cell: Option<Piece>) -> bool
    ensures { result ≡ is_king cell }
{
    match cell {
        Some(piece) => same_kind(piece.kind, Kind::King),
        None => false,
    }
}

/// Whether an unpromoted pawn stands in the cell.
pub(crate) fn is_pawn(cell: Option<Piece>) -> bool
    ensures { result ≡ is_pawn cell }
{
    match cell {
        Some(piece) => same_kind(piece.kind, Kind::Pawn) && !piece.promoted,
        None => false,
    }
}

/// Whether a piece that slides stands in the cell.
pub(crate) fn is_slider(cell: Option<Piece>) -> bool
    ensures { result ≡ is_slider cell }
{
    match cell {
        Some(piece) => {
            same_kind(piece.kind, Kind::Lance) && !piece.promoted
                || same_kind(piece.kind, Kind::Bishop)
                || same_kind(piece.kind, Kind::Rook)
        }
        None => false,
    }
}

fn is_dead(square: Square, cell: Option<Piece>) -> bool
    ensures { result ≡ is_dead square.number cell }
{
    match cell {
        Some(piece) => piece.is_dead_on(square),
        None => false,
    }
}

pub(crate) fn at(cells: &[Option<Piece>; 81], square: u8) -> Option<Piece>
    requires { square < 81 }
    ensures { result ≡ piece_at cells.now square }
{
    cells[square as usize]
}

/// The first square with a piece that could never move again.
pub(crate) fn first_dead(cells: &[Option<Piece>; 81]) -> Option<Square>
    ensures none { result ≡ None → (s : ℕ) → s < 81 → is_dead s (piece_at cells.now s) ≡ false }
    ensures some { IfSome result (λ s. is_dead s.number (piece_at cells.now s.number) ≡ true) }
    ensures first { IfSome result (λ s. (t : ℕ) → t < s.number → is_dead t (piece_at cells.now t)
        ≡ false) }
{
    for number in 0..81 {
        let square = Square { number };
        if is_dead(square, at(cells, number)) {
            return Some(square);
        }
    }
    None
}

/// The first square, from `from` on and before `to`, with an unpromoted pawn of the side.
pub(crate) fn first_pawn(cells: &[Option<Piece>; 81], side: Side, from: u8, to: u8) -> Option<u8>
    requires { to ≤ 81 }
    ensures none { result ≡ None → (s : ℕ) → s < to → from ≤ s
        → is_pawn_of side (piece_at cells.now s) ≡ false }
    ensures from { IfSome result (λ s. from ≤ s) }
    ensures to { IfSome result (λ s. s < to) }
    ensures some { IfSome result (λ s. is_pawn_of side (piece_at cells.now s) ≡ true) }
    ensures first { IfSome result (λ s. (t : ℕ) → t < s → from ≤ t
        → is_pawn_of side (piece_at cells.now t) ≡ false) }
{
    for square in from..to {
        if is_pawn_of(side, at(cells, square)) {
            return Some(square);
        }
    }
    None
}
