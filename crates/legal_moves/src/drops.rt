// Where a piece in hand may be dropped.
ghost use Rattle.std.specs.Prelude.{◌≡◌, ◌≢◌, ◌<◌, ◌↔◌, ℕ, IsTrue};
ghost use Rattle.bit_boards.specs.Mask.{Holds};
ghost use Rattle.bit_boards.specs.declared.piece.Kind.TheVariants.{Pawn, King};
ghost use Rattle.board_core.specs.Board.{hand_count, hand_of};
ghost use Rattle.shogi_rules.specs.Rules.{IsQuiet, IsPawnMate, HasPawnOnFile};
ghost use Rattle.legal_moves.specs.Legal.{IsGuardOf, IsLegalDrop};
ghost use Rattle.legal_moves.specs.Droppable.{MayDrop, IsFreeFor, IsEnemyKing};

use crate::guard::Guard;
use crate::rows::dead;
use bit_boards::{Mask, mask_laws, steps_to};
use board_core::{Kind, Piece, Position, Side, Square};
use shogi_rules::{drop_piece, in_check, legal_laws};

// Whether the side to move has a piece of the kind in hand.
fn has_in_hand(position: &Position, kind: Kind) -> bool
    ensures some { IsTrue result ↔ (0 < hand_count (hand_of position.now position.now.side) kind) }
    ensures king { IsTrue result → kind ≢ King }
{
    if kind == Kind::King {
        // A hand has seven counts, and none of a king.
        position.hand(position.side()).laws();
        return false;
    }
    position.hand(position.side()).count(kind) > 0
}

// The files on which an unpromoted pawn of the side stands.
fn pawn_files(position: &Position, side: Side) -> Mask
    ensures { (s : ℕ) → Holds result s ↔ ((s < 81) × HasPawnOnFile position.now.cells side s) }
{
    // Sets hold nothing but squares of the board.
    mask_laws();
    let mut files = Mask::empty();
    let mut left = position.pawns().and(position.occupied(side));
    while let Some(pawn) = left.pop_first() {
        files = files.or(Mask::file(pawn.file()));
    }
    files
}

// Whether the drop of a pawn is mate; nothing may speak against it but perhaps what it means for
// the kings.
fn mates(position: &Position, to: Square) -> bool
    requires { MayDrop position.now Pawn to.number }
    ensures { IsTrue result ↔ IsPawnMate position.now Pawn to.number }
{
    let next = drop_piece(position, Kind::Pawn, to);
    if !in_check(&next, next.side()) {
        return false;
    }
    !Guard::of(&next).has_board_move(&next)
}

// These squares without that from which a dropped pawn mates the king.
fn without_mate_of(position: &Position, king: Square, squares: Mask) -> Mask
    requires quiet { IsQuiet position.now }
    requires king { IsEnemyKing position.now king.number }
    requires squares { (to : ℕ) → Holds squares to → MayDrop position.now Pawn to }
    ensures { (to : ℕ) → Holds result to
        ↔ (Holds squares to × (¬ IsPawnMate position.now Pawn to)) }
{
    // Sets hold nothing but squares of the board, of which every position has 81.
    mask_laws();
    position.laws();
    let pawn = Piece::plain(Kind::Pawn, position.side());
    match steps_to(pawn, king).and(squares).first() {
        Some(to) => {
            if mates(position, to) {
                return squares.without(to);
            }
            squares
        }
        None => squares,
    }
}

// These squares without that from which a dropped pawn mates.
fn without_mate(position: &Position, squares: Mask) -> Mask
    requires quiet { IsQuiet position.now }
    requires squares { (to : ℕ) → Holds squares to → MayDrop position.now Pawn to }
    ensures { (to : ℕ) → Holds result to
        ↔ (Holds squares to × (¬ IsPawnMate position.now Pawn to)) }
{
    // Sets hold nothing but squares of the board, of which every position has 81.
    mask_laws();
    position.laws();
    match position.king_square(position.side().other()) {
        Some(king) => without_mate_of(position, king, squares),
        None => squares,
    }
}

impl Guard {
    // Of these squares the empty ones from which a piece of the kind could move, and which leave
    // its king unattacked.
    fn free(&self, position: &Position, kind: Kind, wanted: Mask) -> Mask
        requires guard { IsGuardOf position.now self.now }
        requires king { kind ≢ King }
        ensures { (to : ℕ) → Holds result to ↔ (Holds wanted to × IsFreeFor position.now kind to) }
    {
        // Sets hold nothing but squares of the board, of which every position has 81.
        mask_laws();
        position.laws();
        wanted
            .minus(position.all_occupied())
            .minus(dead(Piece::plain(kind, position.side())))
            .and(self.blocks)
    }

    /// Of these squares those on which a piece of the kind may legally be dropped; no square where
    /// the side to move has none in hand. The guard must be that of this position, and the side not
    /// to move must not be in check. Takes no memory. (Rules of shogi: drops, two pawns, mate by a
    /// dropped pawn.)
    pub fn drops(&self, position: &Position, kind: Kind, wanted: Mask) -> Mask
        requires guard { IsGuardOf position.now self.now }
        requires quiet { IsQuiet position.now }
        ensures { (to : ℕ) → Holds result to
            ↔ (Holds wanted to × IsLegalDrop position.now kind to) }
    {
        // Sets hold nothing but squares of the board; and what a legal drop has.
        mask_laws();
        legal_laws();
        if !has_in_hand(position, kind) {
            return Mask::empty();
        }
        let free = self.free(position, kind, wanted);
        if free.is_empty() {
            return free;
        }
        if kind == Kind::Pawn {
            let alone = free.minus(pawn_files(position, position.side()));
            return without_mate(position, alone);
        }
        free
    }
}
