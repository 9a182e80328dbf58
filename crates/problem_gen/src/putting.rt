// Putting a piece that is drawn on the board, or into its owner's hand.
ghost use Rattle.std.specs.Prelude.{◌≡◌, ◌≢◌, ◌≤◌, ◌<◌, ◌+◌, ◌↔◌, ℕ, None, Some, IsTrue, IfSome, IsNone, IsSome, true, false};
ghost use Rattle.bit_boards.specs.declared.piece.Kind.{Kind};
ghost use Rattle.bit_boards.specs.declared.piece.Kind.TheVariants.{Pawn, King};
ghost use Rattle.bit_boards.specs.declared.piece.Side.TheVariants.{Black};
ghost use Rattle.bit_boards.specs.Kind.{total_of, same_kind};
ghost use Rattle.bit_boards.specs.Piece.{is_dead};
ghost use Rattle.board_core.specs.Board.{piece_at, count_of, one_if};
ghost use Rattle.shogi_rules.specs.Rules.{AttacksFrom, HasPawnOnFile};
ghost use Rattle.problem_gen.specs.Generator.{piece_of, square_for, with_piece, MayStand, IsPut, IsUnderWay};

use crate::drawn::Drawn;
use bit_boards::{Mask, mask_laws};
use board_core::{Kind, Piece, Position, Side, Square};
use shogi_rules::attacked;

fn has_pawn_on_file(position: &Position, side: Side, to: Square) -> bool
    ensures { IsTrue result ↔ HasPawnOnFile position.now.cells side to.number }
{
    // Sets hold nothing but squares of the board.
    mask_laws();
    let pawns = position.pawns().and(position.occupied(side));
    !pawns.and(Mask::file(to.file())).is_empty()
}

fn is_second_pawn(position: &Position, piece: &Drawn, to: Square) -> bool
    ensures { IsTrue result
        ↔ ((piece.now.kind ≡ Pawn) × HasPawnOnFile position.now.cells piece.now.side to.number) }
{
    piece.kind == Kind::Pawn && has_pawn_on_file(position, piece.side, to)
}

// Whether the piece, put on its square, attacks White's king, which no other Black piece attacks.
fn attacks_king(position: &Position, king: Square, piece: &Drawn, to: Square) -> bool
    requires under_way { IsUnderWay king.number position.now }
    requires left_over { count_of position.now piece.now.kind < total_of piece.now.kind }
    requires no_king { piece.now.kind ≢ King }
    requires square { to.number ≡ square_for piece.now }
    requires free { piece_at position.now.cells to.number ≡ None }
    requires alive { is_dead to.number (Some (piece_of piece.now)) ≡ false }
    requires pawn { piece.now.kind ≡ Pawn
        → ¬ HasPawnOnFile position.now.cells piece.now.side to.number }
    ensures { IsTrue result
        ↔ ((piece.now.side ≡ Black)
        × AttacksFrom (with_piece position.now piece.now).cells Black (square_for piece.now)
        king.number) }
{
    match piece.side {
        Side::White => false,
        Side::Black => {
            let mut next = *position;
            next.put(to, Piece::plain(piece.kind, piece.side));
            attacked(&next, king, Side::Black)
        }
    }
}

// The square on which the piece may stand, where it is one.
fn standing_square(position: &Position, king: Square, piece: &Drawn) -> Option<Square>
    requires under_way { IsUnderWay king.number position.now }
    requires left_over { count_of position.now piece.now.kind < total_of piece.now.kind }
    requires no_king { piece.now.kind ≢ King }
    requires row_from { 1 ≤ piece.now.row }
    requires row_to { piece.now.row ≤ 9 }
    ensures some { IfSome result (λ square. (square.number ≡ square_for piece.now)
        × MayStand position.now king.number piece.now) }
    ensures none { result ≡ None → ¬ MayStand position.now king.number piece.now }
{
    if piece.file_and_two < 3 || piece.file_and_two > 11 {
        return None;
    }
    let to = Square::on(piece.file_and_two - 2, piece.row);
    if let Some(_) = position.piece_at(to) {
        return None;
    }
    if Piece::plain(piece.kind, piece.side).is_dead_on(to) {
        return None;
    }
    if is_second_pawn(position, piece, to) {
        return None;
    }
    if attacks_king(position, king, piece, to) {
        return None;
    }
    Some(to)
}

/// Puts a piece that is drawn on its square, or into its owner's hand where it may not stand there.
pub(crate) fn put(position: &mut Position, king: Square, piece: &Drawn)
    requires under_way { IsUnderWay king.number position.old }
    requires left_over { count_of position.old piece.now.kind < total_of piece.now.kind }
    requires no_king { piece.now.kind ≢ King }
    requires row_from { 1 ≤ piece.now.row }
    requires row_to { piece.now.row ≤ 9 }
    ensures put { IsPut position.old king.number piece.now position.new }
    ensures under_way { IsUnderWay king.number position.new }
    ensures counts { (k : Kind) → count_of position.new k
        ≡ count_of position.old k + one_if (same_kind piece.now.kind k) }
{
    match standing_square(position, king, piece) {
        Some(square) => position.put(square, Piece::plain(piece.kind, piece.side)),
        None => position.gain(piece.side, piece.kind),
    }
}
