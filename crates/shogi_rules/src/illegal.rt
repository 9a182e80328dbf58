// Why a move may not be made.

/// Why a move isn't legal. [`crate::legal`] names the first reason that holds, in the order of the
/// variants.
#[derive(Clone, Copy, PartialEq, Eq, PartialOrd, Ord, Debug)]
pub enum Illegal {
    /// A move on the board: no piece of the mover stands on the origin.
    NotThere,
    /// A piece of the mover stands on the destination.
    OwnPiece,
    /// The piece doesn't go there, even on an empty board.
    NoStep,
    /// A piece stands between.
    Blocked,
    /// The piece may not be promoted so, or has to be promoted.
    BadPromotion,
    /// A drop: the square isn't empty.
    Occupied,
    /// The mover has no such piece in hand; nobody has a king there.
    NotInHand,
    /// The piece could never move from there.
    DeadDrop,
    /// An unpromoted pawn of the mover stands on the file already.
    TwoPawns,
    /// The mover's own king would be attacked.
    KingLeft,
    /// The pawn-drop rule: the dropped pawn would be mate.
    PawnMate,
}
