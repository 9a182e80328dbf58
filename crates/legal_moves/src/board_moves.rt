// Where a piece on the board may go.
ghost use Rattle.std.specs.Prelude.{◌≡◌, ◌≢◌, ◌<◌, ◌↔◌, ℕ, Some, Bool, true, false, IsTrue, IfSome, IfNone};
ghost use Rattle.bit_boards.specs.Mask.{Holds};
ghost use Rattle.bit_boards.specs.declared.piece.Kind.TheVariants.{King};
ghost use Rattle.board_core.specs.Board.{piece_at};
ghost use Rattle.shogi_rules.specs.Rules.{IsOwn, IsInCheck, BoardMove, after_board};
ghost use Rattle.legal_moves.specs.Legal.{IsGuarded, IsGuardOf, IsLegalBoard, StopsOnceLeft};
ghost use Rattle.legal_moves.specs.Steps.{KeepsKing, IsOpenTo, LeavesFor, MayGo, MovesFrom};

use crate::guard::Guard;
use crate::landings::Landings;
use crate::rows::{dead, promotable};
use attack_lines::{attacked_without, attackers_without, blocks, candidates_for, reached};
use bit_boards::{Mask, mask_laws};
use board_core::{Kind, Piece, Position, Square};
use shogi_rules::legal_laws;

// On how many squares a piece stops an attack from afar: it takes the attacker, or stands on one of
// at most seven between.
const MOST_BLOCKS: u8 = 8;

// The piece on the square, where one of the side to move stands there.
fn own_piece(position: &Position, square: Square) -> Option<Piece>
    ensures there { IfSome result (λ piece. piece_at position.now.cells square.number
        ≡ Some piece) }
    ensures own { IfSome result (λ piece. piece.side ≡ position.now.side) }
    ensures none { IfNone result (¬ IsOwn position.now square.number) }
{
    let piece = position.piece_at(square)?;
    if piece.side == position.side() {
        Some(piece)
    } else {
        None
    }
}

// Of these squares those to which the king may go from his.
fn king_steps(position: &Position, king: Square, wanted: Mask) -> Mask
    ensures { (to : ℕ) → Holds result to
        ↔ (Holds wanted to × IsOpenTo position.now king.number to) }
{
    let by = position.side().other();
    wanted.minus(attacked_without(position, king, wanted, by))
}

// The squares on which a piece that left a square stops whoever attacks the king then.
fn stops_once_left(position: &Position, from: Square, king: Square) -> Mask
    ensures { (to : ℕ) → Holds result to
        ↔ ((to < 81) × StopsOnceLeft position.now from.number to king.number) }
{
    let by = position.side().other();
    blocks(attackers_without(position, from, king, by), king)
}

impl Guard {
    // Of these squares those to which the piece, not the king, may go from this one without leaving
    // the king there attacked.
    fn keeps_king(&self, position: &Position, king: Square, from: Square, wanted: Mask) -> Mask
        requires guard { IsGuarded position.now king self.now.blocks self.now.shields }
        ensures { (to : ℕ) → Holds result to
            ↔ (Holds wanted to × StopsOnceLeft position.now from.number to king.number) }
    {
        // Sets hold nothing but squares of the board.
        mask_laws();
        if self.shields.contains(from) {
            return wanted.and(stops_once_left(position, from, king));
        }
        wanted.and(self.blocks)
    }

    // Of these squares those to which the piece, not the king, may go from this one without leaving
    // its king attacked.
    fn keeps(&self, position: &Position, from: Square, wanted: Mask) -> Mask
        requires { IsGuardOf position.now self.now }
        ensures { (to : ℕ) → Holds result to
            ↔ (Holds wanted to × KeepsKing position.now self.now.king from.number to) }
    {
        // Sets hold nothing but squares of the board.
        mask_laws();
        match self.king {
            Some(king) => self.keeps_king(position, king, from, wanted),
            None => wanted.and(self.blocks),
        }
    }

    // Of these squares those to which the piece may go from this one without leaving its king
    // attacked.
    fn safe(&self, position: &Position, piece: Piece, from: Square, wanted: Mask) -> Mask
        requires guard { IsGuardOf position.now self.now }
        requires leaves { LeavesFor position.now from.number piece wanted }
        ensures { (to : ℕ) (promote : Bool) → Holds result to
            ↔ (Holds wanted to ×
            (¬ IsInCheck (after_board position.now from.number to promote).cells position.now.side)) }
    {
        // Steps go to near squares, slides along lines; and every position has 81 squares.
        mask_laws();
        position.laws();
        if piece.kind == Kind::King {
            return king_steps(position, from, wanted);
        }
        self.keeps(position, from, wanted)
    }

    // Of these squares those that the side's piece reaches from this one, where none of its side
    // stands, without leaving its king attacked.
    fn goes(&self, position: &Position, piece: Piece, from: Square, wanted: Mask) -> Mask
        requires guard { IsGuardOf position.now self.now }
        requires there { piece_at position.now.cells from.number ≡ Some piece }
        requires own { piece.side ≡ position.now.side }
        ensures { (to : ℕ) (promote : Bool) → Holds result to
            ↔ (Holds wanted to × MayGo position.now from.number to promote piece) }
    {
        // Sets hold nothing but squares of the board.
        mask_laws();
        let to = reached(position, piece, from)
            .minus(position.occupied(piece.side))
            .and(wanted);
        if to.is_empty() {
            return to;
        }
        self.safe(position, piece, from, to)
    }

    // The squares to which the side's piece may legally go from this one.
    fn piece_moves(
        &self,
        position: &Position,
        piece: Piece,
        from: Square,
        wanted: Landings,
    ) -> Landings
        requires guard { IsGuardOf position.now self.now }
        requires there { piece_at position.now.cells from.number ≡ Some piece }
        requires own { piece.side ≡ position.now.side }
        ensures plain { (to : ℕ) → Holds result.plain to
            ↔ (Holds wanted.plain to × IsLegalBoard position.now from.number to false) }
        ensures promoted { (to : ℕ) → Holds result.promoted to
            ↔ (Holds wanted.promoted to × IsLegalBoard position.now from.number to true) }
    {
        // Sets hold nothing but squares of the board; and what a legal move has.
        mask_laws();
        legal_laws();
        let safe = self.goes(position, piece, from, wanted.plain.or(wanted.promoted));
        if safe.is_empty() {
            return Landings {
                plain: safe,
                promoted: safe,
            };
        }
        Landings {
            plain: wanted.plain.minus(dead(piece)).and(safe),
            promoted: wanted.promoted.and(promotable(piece, from)).and(safe),
        }
    }

    /// Of these squares those to which the piece on a square may legally go; no square where no
    /// piece of the side to move stands there. The guard must be that of this position. Takes no
    /// memory. (Rules of shogi: legal moves.)
    pub fn board_moves(&self, position: &Position, from: Square, wanted: Landings) -> Landings
        requires { IsGuardOf position.now self.now }
        ensures plain { (to : ℕ) → Holds result.plain to
            ↔ (Holds wanted.plain to × IsLegalBoard position.now from.number to false) }
        ensures promoted { (to : ℕ) → Holds result.promoted to
            ↔ (Holds wanted.promoted to × IsLegalBoard position.now from.number to true) }
    {
        // What a legal move has, and that a set without squares holds none.
        legal_laws();
        mask_laws();
        if wanted.plain.or(wanted.promoted).is_empty() {
            return wanted;
        }
        match own_piece(position, from) {
            Some(piece) => self.piece_moves(position, piece, from, wanted),
            None => Landings {
                plain: Mask::empty(),
                promoted: Mask::empty(),
            },
        }
    }

    /// Squares with pieces of the side to move, among them all from which there is a legal move:
    /// where its king is attacked, his own, and those of pieces that would go on an empty board to
    /// where the attack is stopped. The guard must be that of this position. Takes no memory.
    /// (Rules of shogi: legal moves.)
    pub fn movers(&self, position: &Position) -> Mask
        requires { IsGuardOf position.now self.now }
        ensures own { (from : ℕ) → Holds result from → IsOwn position.now from }
        ensures all { (from to : ℕ) (promote : Bool) → from < 81 → to < 81
            → IsLegalBoard position.now from to promote → Holds result from }
    {
        // What a legal move has; and every position has 81 squares.
        legal_laws();
        position.laws();
        let own = position.occupied(position.side());
        match self.king {
            Some(king) if self.blocks.len() <= MOST_BLOCKS => {
                let stopping = candidates_for(position, position.side(), self.blocks);
                stopping.with(king).and(own)
            }
            _ => own,
        }
    }

    // Whether the piece on a square has a legal move.
    fn has_move_from(&self, position: &Position, from: Square) -> bool
        requires { IsGuardOf position.now self.now }
        ensures { IsTrue result ↔ MovesFrom position.now from.number }
    {
        // Sets hold nothing but squares of the board.
        mask_laws();
        let found = self.board_moves(position, from, Landings::full());
        !found.plain.or(found.promoted).is_empty()
    }

    // Whether the king has a legal move.
    fn has_king_move(&self, position: &Position) -> bool
        requires { IsGuardOf position.now self.now }
        ensures { IsTrue result → BoardMove position.now }
    {
        // What a legal move has.
        legal_laws();
        match self.king {
            Some(king) => self.has_move_from(position, king),
            None => false,
        }
    }

    /// Whether the side to move has a legal move on the board; its king is asked first. The guard
    /// must be that of this position. Takes no memory. (Rules of shogi: legal moves.)
    pub fn has_board_move(&self, position: &Position) -> bool
        requires { IsGuardOf position.now self.now }
        ensures { IsTrue result ↔ BoardMove position.now }
    {
        // What a legal move has.
        legal_laws();
        if self.has_king_move(position) {
            return true;
        }
        let mut left = self.movers(position);
        while let Some(from) = left.pop_first() {
            if self.has_move_from(position, from) {
                return true;
            }
        }
        false
    }
}
