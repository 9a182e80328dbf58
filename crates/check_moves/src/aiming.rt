// Which moves of a piece give check.
ghost use Rattle.std.specs.Prelude.{◌≡◌, ◌≢◌, ◌<◌, ◌↔◌, ℕ, List, Option, Some, true, false};
ghost use Rattle.bit_boards.specs.declared.square.Square.{Square};
ghost use Rattle.bit_boards.specs.declared.piece.Piece.{Piece};
ghost use Rattle.bit_boards.specs.declared.piece.Kind.TheVariants.{King};
ghost use Rattle.bit_boards.specs.Kind.{other, can_promote};
ghost use Rattle.bit_boards.specs.Mask.{Holds};
ghost use Rattle.board_core.specs.Board.{piece_at, is_king_of};
ghost use Rattle.board_core.specs.declared.moves.Move.TheVariants.{Board, Drop};
ghost use Rattle.shogi_rules.specs.Rules.{IsQuiet, IsOwn, Reaches, landed_piece};
ghost use Rattle.shogi_rules.specs.Tsume.{IsCheck};
ghost use Rattle.attack_lines.specs.Lines.{IsSightOf};
ghost use Rattle.check_moves.specs.Aim.{IsAimOf};
ghost use Rattle.attack_laws.specs.Unveiled.{IsUnveiled};

use crate::aim::Aim;
use attack_lines::{Sight, attackers_without, blocks, shields};
use bit_boards::{Mask, mask_laws};
use board_core::{Kind, Piece, Position, Square};
use legal_moves::{Guard, Landings};
use shogi_rules::legal_laws;

// The squares from which the piece, promoted, would reach the king; none where it can't be
// promoted.
fn promoted_aims(sight: &Sight, piece: Piece) -> Mask
    ensures { (cells : List (Option Piece)) → IsSightOf cells sight.now → piece.promoted ≡ false
        → can_promote piece.kind ≡ true → (to : ℕ) → Holds result to
        ↔ ((to < 81) × Reaches cells (landed_piece true piece) to sight.now.square.number) }
{
    if piece.promoted || !piece.kind.can_promote() {
        return Mask::empty();
    }
    sight.reached_from(Piece {
        kind: piece.kind,
        promoted: true,
        side: piece.side,
    })
}

impl Aim {
    /// The aim at the defender's king, who stands on this square.
    pub(crate) fn of(position: &Position, king: Square) -> Aim
        requires king { is_king_of (other position.now.side)
            (piece_at position.now.cells king.number) ≡ true }
        requires only { (square : ℕ)
            → is_king_of (other position.now.side) (piece_at position.now.cells square) ≡ true
            → square ≡ king.number }
        ensures { IsAimOf position.now result }
    {
        Aim {
            sight: Sight::of(position, king),
            unveilers: shields(position, king, position.side()),
            guard: Guard::of(position),
        }
    }

    // The squares to which the piece on this one may go so that another piece attacks the king. It
    // says nothing of those where a piece of its own side stands.
    fn opened(&self, position: &Position, from: Square) -> Mask
        requires aim { IsAimOf position.now self.now }
        requires quiet { IsQuiet position.now }
        ensures { (to : ℕ) → to < 81 → ¬ IsOwn position.now to → Holds result to
            ↔ IsUnveiled position.now.cells position.now.side from.number to
            self.now.sight.square.number }
    {
        // Sets hold nothing but squares of the board, of which there are 81.
        mask_laws();
        position.laws();
        if !self.unveilers.contains(from) {
            return Mask::empty();
        }
        let king = self.sight.square();
        let behind = attackers_without(position, from, king, position.side());
        Mask::full().minus(blocks(behind, king))
    }

    // The checks by the piece that stands on a square.
    fn piece_checks(&self, position: &Position, piece: Piece, from: Square) -> Landings
        requires aim { IsAimOf position.now self.now }
        requires quiet { IsQuiet position.now }
        requires there { piece_at position.now.cells from.number ≡ Some piece }
        ensures plain { (to : Square) → Holds result.plain to.number
            ↔ IsCheck position.now.side position.now (Board from to false) }
        ensures promoted { (to : Square) → Holds result.promoted to.number
            ↔ IsCheck position.now.side position.now (Board from to true) }
    {
        // A piece steps to near squares alone, a board has 81 squares, and what a legal move has is
        // known.
        mask_laws();
        position.laws();
        legal_laws();
        let opened = self.opened(position, from);
        let wanted = Landings {
            plain: opened.or(self.sight.reached_from(piece)),
            promoted: opened.or(promoted_aims(&self.sight, piece)),
        };
        self.guard.board_moves(position, from, wanted)
    }

    /// The checks by the piece on a square.
    pub(crate) fn board_checks(&self, position: &Position, from: Square) -> Landings
        requires aim { IsAimOf position.now self.now }
        requires quiet { IsQuiet position.now }
        ensures plain { (to : Square) → Holds result.plain to.number
            ↔ IsCheck position.now.side position.now (Board from to false) }
        ensures promoted { (to : Square) → Holds result.promoted to.number
            ↔ IsCheck position.now.side position.now (Board from to true) }
    {
        match position.piece_at(from) {
            Some(piece) => self.piece_checks(position, piece, from),
            None => Landings {
                plain: Mask::empty(),
                promoted: Mask::empty(),
            },
        }
    }

    /// The squares on which a dropped piece of the kind, which isn't the king, gives check; none
    /// where the hand has no such piece.
    pub(crate) fn drop_checks(&self, position: &Position, kind: Kind) -> Mask
        requires aim { IsAimOf position.now self.now }
        requires quiet { IsQuiet position.now }
        requires king { kind ≢ King }
        ensures { (to : Square) → Holds result to.number
            ↔ IsCheck position.now.side position.now (Drop kind to) }
    {
        // A board has 81 squares, and what a legal drop has is known.
        position.laws();
        legal_laws();
        if position.hand(position.side()).count(kind) == 0 {
            return Mask::empty();
        }
        let aims = self.sight.reached_from(Piece::plain(kind, position.side()));
        self.guard.drops(position, kind, aims)
    }
}
