// Positions from their parts.
ghost use Rattle.std.specs.Prelude.{◌≡◌, ◌≢◌, ◌<◌, ◌≤◌, ◌+◌, ◌↔◌, ℕ, None, IsTrue, IfSome, IfOk};
ghost use Rattle.bit_boards.specs.Kind.{place_of, total_of};
ghost use Rattle.board_core.specs.Board.{Board, hand_count, HasDefender};
ghost use Rattle.board_core.specs.Kept.{TwoPawnsOn};
ghost use Rattle.board_core.specs.Build.{IsBuilt};
ghost use Rattle.bit_boards.specs.declared.piece.Kind.{Kind};
ghost use Rattle.bit_boards.specs.declared.piece.Kind.TheVariants.{King};
ghost use Rattle.bit_boards.specs.declared.piece.Side.{Side};
ghost use Rattle.bit_boards.specs.declared.piece.Side.TheVariants.{Black};

use crate::scan::{first_dead, first_pawn};
use crate::tally::{Tally, by_side};
use crate::{Hand, Kind, Piece, Position, Side, Square};

/// Why cells, hands and a side make no position: the first fault that is there, in the order of the
/// variants.
#[derive(Clone, Copy, PartialEq, Eq, Debug)]
pub enum BadPosition {
    /// More pieces of the kind, promoted or not, than a set of shogi has: the first such kind in
    /// the order P L N S G B R.
    TooMany(Kind),
    /// The side that isn't to move, the defender of a problem, has no king.
    NoDefenderKing,
    /// A side has two kings or more.
    TwoKings,
    /// A pawn, lance or knight that could never move again: the first such square by its number.
    DeadPiece(Square),
    /// Two unpromoted pawns of a side on a file, from 1 to 9: the first such file.
    TwoPawns(u8),
}

impl Position {
    /// The position with these cells (by the number of the square), hands and side to move; or the
    /// first fault of them, in the order of the variants of [`BadPosition`]: more pieces of a kind
    /// than a set of shogi has, no king of the side that isn't to move, two kings of a side, a
    /// piece that could never move again, two unpromoted pawns of a side on a file (rules of shogi:
    /// the set, forced promotion, nifu). Takes no memory.
    pub fn build(
        cells: &[Option<Piece>; 81],
        black: Hand,
        white: Hand,
        side: Side,
    ) -> Result<Position, BadPosition>
        ensures built { IsBuilt
            (record { cells = cells.now; black = black; white = white; side = side }) result }

        // The defender has a king.
        ensures defender { IfOk result HasDefender }
    {
        let Tally {
            kinds: standing,
            black_kings,
            white_kings,
        } = Tally::of(cells);
        if let Some(kind) = first_too_many(standing, black, white) {
            return Err(BadPosition::TooMany(kind));
        }
        if by_side(side.other(), black_kings, white_kings) == 0 {
            return Err(BadPosition::NoDefenderKing);
        }
        if black_kings > 1 {
            return Err(BadPosition::TwoKings);
        }
        if white_kings > 1 {
            return Err(BadPosition::TwoKings);
        }
        if let Some(square) = first_dead(cells) {
            return Err(BadPosition::DeadPiece(square));
        }
        if let Some(file) = first_file_of_two_pawns(cells) {
            return Err(BadPosition::TwoPawns(file));
        }
        // A hand has seven counts.
        black.laws();
        white.laws();
        Ok(Position::kept(cells, black, white, side))
    }
}

// Whether there are more pieces of the kind than a set has: of so many on the board and in the
// hands.
fn is_too_many(standing: Hand, black: Hand, white: Hand, kind: Kind) -> bool
    requires { kind ≢ King }
    ensures { IsTrue result ↔ (total_of kind
        < hand_count standing kind + hand_count black kind + hand_count white kind) }
{
    let in_hand = usize::from(black.count(kind)) + usize::from(white.count(kind));
    usize::from(standing.count(kind)) + in_hand > usize::from(kind.total())
}

// The first kind, in their order, of which there are more pieces than a set has: of so many on the
// board and in the hands.
fn first_too_many(standing: Hand, black: Hand, white: Hand) -> Option<Kind>
    ensures none { result ≡ None → (k : Kind) → k ≢ King
        → hand_count standing k + hand_count black k + hand_count white k ≤ total_of k }
    ensures not_king { IfSome result (λ k. k ≢ King) }
    ensures some { IfSome result
        (λ k. total_of k < hand_count standing k + hand_count black k + hand_count white k) }
    ensures first { IfSome result (λ k. (j : Kind) → place_of j < place_of k
        → hand_count standing j + hand_count black j + hand_count white j ≤ total_of j) }
{
    for kind in Kind::IN_HAND {
        if is_too_many(standing, black, white, kind) {
            return Some(kind);
        }
    }
    None
}

// Whether two unpromoted pawns of the side stand on the file: one pass over its nine squares.
fn has_two_pawns(cells: &[Option<Piece>; 81], side: Side, file: u8) -> bool
    requires from { 1 ≤ file }
    requires to { file ≤ 9 }
    ensures { IsTrue result ↔ TwoPawnsOn cells.now side file }
{
    let end = 9 * file;
    match first_pawn(cells, side, end - 9, end) {
        Some(one) => first_pawn(cells, side, one + 1, end).is_some(),
        None => false,
    }
}

// The first file on which two unpromoted pawns of a side stand.
fn first_file_of_two_pawns(cells: &[Option<Piece>; 81]) -> Option<u8>
    ensures none { result ≡ None → (file : ℕ) (side : Side) → TwoPawnsOn cells.now side file → ⊥ }
    ensures some { IfSome result (λ file. (side : Side) × TwoPawnsOn cells.now side file) }
    ensures first { IfSome result (λ file. (f : ℕ) → f < file → (side : Side)
        → TwoPawnsOn cells.now side f → ⊥) }
{
    for file in 1..10 {
        if has_two_pawns(cells, Side::Black, file) {
            return Some(file);
        }
        if has_two_pawns(cells, Side::White, file) {
            return Some(file);
        }
    }
    None
}
