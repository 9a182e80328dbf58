// What a set has left, in the defender's hand.
ghost use Rattle.std.specs.Prelude.{◌≡◌, ◌≢◌, ◌≤◌, count_by};
ghost use Rattle.board_core.specs.Code.{cells_of};
ghost use Rattle.bit_boards.specs.Kind.{total_of};
ghost use Rattle.board_core.specs.Board.{count_of, is_of_kind, HasDefender};
ghost use Rattle.board_core.specs.Rest.{count_with_rest, hand_with_rest, board_with_rest};
ghost use Rattle.bit_boards.specs.declared.piece.Kind.{Kind};
ghost use Rattle.bit_boards.specs.declared.piece.Kind.TheVariants.{King};

use crate::coding::Codes;
use crate::scan::is_of_kind;
use crate::{Hand, Kind, Position};

/// The position with all pieces that are neither on the board nor in a hand, kings aside, in the
/// hand of the side not to move; nothing else changes. So a problem of tsume-shogi is usually
/// given: the defender holds the rest of the set. Takes no memory.
pub fn rest(position: &Position) -> Position
    ensures position { result ≡ board_with_rest position.now }
    ensures totals { (k : Kind) → k ≢ King → count_of result k ≡ total_of k }
    ensures defender { HasDefender position.now → HasDefender result }
{
    // What every position keeps holds of this one.
    position.laws();
    position.with_hand(position.side().other(), hand_with_rest(position))
}

// The hand of the side not to move, with all that is left.
fn hand_with_rest(position: &Position) -> Hand
    ensures { result ≡ hand_with_rest position.now }
{
    Hand::of([
        count_with_rest(position, Kind::Pawn),
        count_with_rest(position, Kind::Lance),
        count_with_rest(position, Kind::Knight),
        count_with_rest(position, Kind::Silver),
        count_with_rest(position, Kind::Gold),
        count_with_rest(position, Kind::Bishop),
        count_with_rest(position, Kind::Rook),
    ])
}

// How many of a kind the side not to move holds with what is left: all that are neither on the
// board nor in the other hand.
fn count_with_rest(position: &Position, kind: Kind) -> u8
    requires { kind ≢ King }
    ensures { result ≡ count_with_rest position.now kind }
{
    let standing = count_standing(position.codes(), kind) as u8;
    kind.total() - standing - position.hand(position.side()).count(kind)
}

// How many pieces of a kind, promoted or not, of both sides, stand on squares of these codes.
fn count_standing(codes: &Codes, kind: Kind) -> usize
    ensures count { result ≡ count_by (is_of_kind kind) (cells_of codes.now) }
    ensures small { result ≤ 81 }
{
    codes
        .iter()
        .filter(|code| is_of_kind(kind, code.cell()))
        .count()
}
