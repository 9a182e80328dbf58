// What moves do.
ghost use Rattle.std.specs.Prelude.{◌≡◌, ◌≢◌, ◌<◌, ◌+◌, Some};
ghost use Rattle.bit_boards.specs.declared.piece.Piece.{Piece};
ghost use Rattle.bit_boards.specs.declared.piece.Kind.{Kind};
ghost use Rattle.bit_boards.specs.declared.piece.Side.{Side};
ghost use Rattle.bit_boards.specs.declared.piece.Kind.TheVariants.{King};
ghost use Rattle.bit_boards.specs.Kind.{total_of, other};
ghost use Rattle.board_core.specs.Text.{HasText};
ghost use Rattle.board_core.specs.Board.{hand_of, with_hand, is_of_kind, count_of, kings_of, one_if};
ghost use Rattle.shogi_rules.specs.Rules.{landed_piece, hand_with_capture, after_board, after_drop, IsQuiet, IsOwn, Fits, IsClear, PromotionFits, RefusesDrop, IsLegal, IsDropped, after};
ghost use Rattle.bit_boards.specs.declared.square.Square.{Square};
ghost use Rattle.board_core.specs.declared.moves.Move.TheVariants.{Drop};
ghost use Rattle.shogi_rules.specs.declared.illegal.Illegal.TheVariants.{Occupied, NotInHand, DeadDrop, TwoPawns};

use board_core::{Kind, Move, Piece, Position, Side, Square};

pub(crate) fn landed_piece(piece: Piece, promote: bool) -> Piece
    ensures { result ≡ landed_piece promote piece }
{
    Piece {
        kind: piece.kind,
        promoted: piece.promoted || promote && piece.kind.can_promote(),
        side: piece.side,
    }
}

// A captured piece, where there is one, goes into the side's hand.
fn capture(position: &mut Position, side: Side, captured: Option<Piece>)
    requires { (piece : Piece) → captured ≡ Some piece → (piece.kind ≢ King)
        × (count_of position.old piece.kind < total_of piece.kind) }
    ensures position { position.new
        ≡ with_hand position.old side (hand_with_capture captured (hand_of position.old side)) }
    ensures counts { (kind : Kind) → count_of position.new kind
        ≡ count_of position.old kind + one_if (is_of_kind kind captured) }
{
    if let Some(piece) = captured {
        position.gain(side, piece.kind);
    }
}

/// The position after a move on the board against which nothing speaks but perhaps the mover's
/// king.
pub(crate) fn move_piece(position: &Position, from: Square, to: Square, promote: bool) -> Position
    requires quiet { IsQuiet position.now }
    requires own { IsOwn position.now from.number }
    requires free { ¬ IsOwn position.now to.number }
    requires fits { Fits position.now from.number to.number }
    requires clear { IsClear position.now.cells from.number to.number }
    requires promotion { PromotionFits position.now from.number to.number promote }
    ensures position { result ≡ after_board position.now from.number to.number promote }
    ensures conserved { (kind : Kind) → count_of result kind ≡ count_of position.now kind }
    ensures kings { (side : Side) → kings_of result side ≡ kings_of position.now side }
    ensures moves { from.number ≢ to.number }
{
    // What every position keeps holds of this one.
    position.laws();
    match position.piece_at(from) {
        Some(piece) => {
            let side = position.side();
            let mut next = *position;
            next.take(from);
            next.take(to);
            next.put(to, landed_piece(piece, promote));
            capture(&mut next, side, position.piece_at(to));
            next.pass();
            next
        }
        None => unreachable!(),
    }
}

/// The position after a drop against which nothing speaks but perhaps what it means for the kings:
/// the mover's own may be in check after it, and it may be a mate by a dropped pawn. Takes no
/// memory. (Rules of shogi: drops.)
pub fn drop_piece(position: &Position, kind: Kind, to: Square) -> Position
    requires empty { ¬ RefusesDrop position.now kind to.number Occupied }
    requires in_hand { ¬ RefusesDrop position.now kind to.number NotInHand }
    requires alive { ¬ RefusesDrop position.now kind to.number DeadDrop }
    requires pawn { ¬ RefusesDrop position.now kind to.number TwoPawns }
    ensures position { result ≡ after_drop position.now kind to.number }
    ensures conserved { (k : Kind) → count_of result k ≡ count_of position.now k }
    ensures kings { (owner : Side) → kings_of result owner ≡ kings_of position.now owner }
    ensures changes { IsDropped position.now result kind to.number }
    ensures king { kind ≢ King }
{
    let side = position.side();
    let mut next = *position;
    next.spend(side, kind);
    next.put(to, Piece::plain(kind, side));
    next.pass();
    next
}

/// The position after a legal move. Takes no memory.
///
/// The side not to move must not be in check; after the move it isn't either. (Rules of shogi: a
/// captured piece goes unpromoted into the captor's hand; a dropped piece stands unpromoted.)
pub fn apply(position: &Position, by: Move) -> Position
    requires quiet { IsQuiet position.now }
    requires legal { IsLegal position.now by }
    ensures position { result ≡ after position.now by }
    ensures turn { result.side ≡ other position.now.side }
    ensures quiet { IsQuiet result }

    // A legal move goes to another square, and drops no king.
    ensures has_text { HasText by }

    // No piece is lost or made: of each kind there are as many as before, on the board and in the
    // hands.
    ensures conserved { (kind : Kind) → count_of result kind ≡ count_of position.now kind }

    // No king is taken: each side has as many as before.
    ensures kings { (side : Side) → kings_of result side ≡ kings_of position.now side }

    // A drop changes one cell and one count of one hand.
    ensures drop { (kind : Kind) (to : Square) → by ≡ Drop kind to
        → IsDropped position.now result kind to.number }
{
    match by {
        Move::Board { from, to, promote } => move_piece(position, from, to, promote),
        Move::Drop { kind, to } => drop_piece(position, kind, to),
    }
}
