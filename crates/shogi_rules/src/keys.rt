// The key of the position after a move, without that position.
ghost use Rattle.std.specs.Prelude.{◌≡◌};
ghost use Rattle.board_core.specs.Board.{Board, hand_of, with_hand};
ghost use Rattle.board_core.specs.Kept.{IsKept};
ghost use Rattle.board_core.specs.Key.{key_of};
ghost use Rattle.shogi_rules.specs.Rules.{hand_with_capture, after_board, after_drop, IsOwn, RefusesDrop, IsLegal, after};
ghost use Rattle.shogi_rules.specs.declared.illegal.Illegal.TheVariants.{Occupied, NotInHand};

use crate::moving::landed_piece;
use board_core::{Key, Kind, Move, Piece, Position, Side, Square};

// A captured piece, where there is one, goes into the side's hand.
fn capture(key: &mut Key, side: Side, captured: Option<Piece>)
    ensures { (b : Board) → IsKept b → key.old.0 ≡ key_of b → key.new.0
        ≡ key_of (with_hand b side (hand_with_capture captured (hand_of b side))) }
{
    if let Some(piece) = captured {
        key.gain(side, piece.kind);
    }
}

// The key after a move on the board of an own piece to a square where no own piece stands.
fn key_after_board(position: &Position, key: &Key, from: Square, to: Square, promote: bool) -> Key
    requires own { IsOwn position.now from.number }
    requires free { ¬ IsOwn position.now to.number }
    requires key { key.now.0 ≡ key_of position.now }
    ensures { result.0 ≡ key_of (after_board position.now from.number to.number promote) }
{
    // What every position keeps holds of this one.
    position.laws();
    match position.piece_at(from) {
        Some(piece) => {
            let (side, captured) = (position.side(), position.piece_at(to));
            let mut next = *key;
            next.pass(side);
            capture(&mut next, side, captured);
            next.replace(from, Some(piece), None);
            next.replace(to, captured, Some(landed_piece(piece, promote)));
            next
        }
        None => unreachable!(),
    }
}

// The key after a drop of a kind in hand on an empty square.
fn key_after_drop(position: &Position, key: &Key, kind: Kind, to: Square) -> Key
    requires empty { ¬ RefusesDrop position.now kind to.number Occupied }
    requires in_hand { ¬ RefusesDrop position.now kind to.number NotInHand }
    requires key { key.now.0 ≡ key_of position.now }
    ensures { result.0 ≡ key_of (after_drop position.now kind to.number) }
{
    // What every position keeps holds of this one.
    position.laws();
    let side = position.side();
    let mut next = *key;
    next.pass(side);
    next.spend(side, kind);
    next.replace(to, None, Some(Piece::plain(kind, side)));
    next
}

/// The key of the position after a legal move, from the key of the position before it. The position
/// after the move isn't made, so this costs a small part of what [`apply`](crate::apply) costs: at
/// most three of the eight words change. It is a position that keeps what every position keeps, so
/// its key is no other one's. Takes no memory.
pub fn key_after(position: &Position, key: &Key, by: Move) -> Key
    requires legal { IsLegal position.now by }
    requires key { key.now.0 ≡ key_of position.now }
    ensures key { result.0 ≡ key_of (after position.now by) }
    ensures kept { IsKept (after position.now by) }
{
    // What every position keeps holds of this one.
    position.laws();
    match by {
        Move::Board { from, to, promote } => key_after_board(position, key, from, to, promote),
        Move::Drop { kind, to } => key_after_drop(position, key, kind, to),
    }
}
