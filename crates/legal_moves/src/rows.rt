// Where pieces are promoted, and where they could never move again.
ghost use Rattle.std.specs.Prelude.{◌≡◌, ◌<◌, ◌≤◌, ◌+◌, ◌&&◌, ℕ, nat_lt, Some, true};
ghost use Rattle.bit_boards.specs.Mask.{holds};
ghost use Rattle.bit_boards.specs.Square.{height};
ghost use Rattle.bit_boards.specs.Piece.{is_dead};
ghost use Rattle.shogi_rules.specs.Rules.{is_in_zone, promotion_fits};

use bit_boards::Mask;
use board_core::{Piece, Side, Square};

// The last three rows of a side.
fn zone(side: Side) -> Mask
    ensures { (s : ℕ) → holds result s ≡ (nat_lt s 81 && is_in_zone side s) }
{
    match side {
        Side::Black => Mask::row(1).or(Mask::row(2)).or(Mask::row(3)),
        Side::White => Mask::row(9).or(Mask::row(8)).or(Mask::row(7)),
    }
}

// The last row of a side.
fn last_row(side: Side) -> Mask
    ensures { (s : ℕ) → holds result s ≡ (nat_lt s 81 && nat_lt 8 (height side s + 1)) }
{
    match side {
        Side::Black => Mask::row(1),
        Side::White => Mask::row(9),
    }
}

// The last two rows of a side.
fn last_two_rows(side: Side) -> Mask
    ensures { (s : ℕ) → holds result s ≡ (nat_lt s 81 && nat_lt 8 (height side s + 2)) }
{
    match side {
        Side::Black => Mask::row(1).or(Mask::row(2)),
        Side::White => Mask::row(9).or(Mask::row(8)),
    }
}

// The squares with fewer rows ahead of them, for the side, than this: 0, 1 or 2.
fn rows_too_few(side: Side, needed: u8) -> Mask
    requires { needed ≤ 2 }
    ensures { (s : ℕ) → holds result s ≡ (nat_lt s 81 && nat_lt 8 (height side s + needed)) }
{
    match needed {
        0 => Mask::empty(),
        1 => last_row(side),
        _ => last_two_rows(side),
    }
}

/// The squares from which the piece could never move again.
pub(crate) fn dead(piece: Piece) -> Mask
    ensures { (s : ℕ) → holds result s ≡ (nat_lt s 81 && is_dead s (Some piece)) }
{
    if piece.promoted {
        return Mask::empty();
    }
    rows_too_few(piece.side, piece.kind.rows_needed())
}

/// The squares to which the piece may be promoted from this one.
pub(crate) fn promotable(piece: Piece, from: Square) -> Mask
    ensures { (s : ℕ) → holds result s ≡ (nat_lt s 81 && promotion_fits piece from.number s true) }
{
    if piece.promoted || !piece.kind.can_promote() {
        return Mask::empty();
    }
    let zone = zone(piece.side);
    if zone.contains(from) {
        return Mask::full();
    }
    zone
}
