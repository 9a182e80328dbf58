// Positions: what can be asked of them, and the changes that moves are made of.
ghost use Rattle.std.specs.Prelude.{◌≡◌, ◌≢◌, ◌<◌, ◌+◌, ℕ, None, Some, false, true, ◌↔◌, IfSome, IsNone, IsSome, IsTrue, is_some};
ghost use Rattle.bit_boards.specs.Square.{file_of};
ghost use Rattle.bit_boards.specs.Kind.{total_of, same_kind};
ghost use Rattle.bit_boards.specs.Piece.{plain_piece, is_dead};
ghost use Rattle.board_core.specs.Board.{piece_at, hand_count, hand_of, with_more, with_less, is_pawn_of, count_of, kings_of, with_cell, with_hand, with_turn_passed, one_if, ChangesCell, is_king_of};
ghost use Rattle.board_core.specs.Kept.{IsKept};
ghost use Rattle.board_core.specs.Code.{cells_of};
ghost use Rattle.board_core.specs.Sets.{is_of_side, is_king, is_pawn, is_slider};
ghost use Rattle.bit_boards.specs.Mask.{holds};
ghost use Rattle.bit_boards.specs.declared.piece.Kind.{Kind};
ghost use Rattle.bit_boards.specs.declared.piece.Kind.TheVariants.{King};

use crate::code::Code;
use crate::coding::{Codes, at, codes_of};
use crate::pack::same_key;
use crate::sets::Sets;
use crate::{Hand, Kind, Piece, Side, Square};
use bit_boards::Mask;
use std::marker::Model;
use std::mem::size_of;

const _: () = prove!(size_of::<Position>() <= 192);

/// A position of shogi: what stands on each square, the two hands, and the side to move. A plain
/// value of fixed size, copied as its bytes.
///
/// It keeps: no kind has more pieces than a set (18 pawns, 4 each of lance, knight, silver and
/// gold, 2 each of bishop and rook; on the board, promoted or not, of both sides, and in both
/// hands); each side has at most one king; no piece stands where it could never move again; no side
/// has two unpromoted pawns on a file.
#[derive(Clone, Copy, Debug)]
pub struct Position {
    codes: Codes,
    black: Hand,
    white: Hand,
    side: Side,
    sets: Sets,
}

impl Model for Position {
    ghost use Rattle.board_core.specs.Board.{Board, piece_at};

    ghost Value = { Board };

    ghost use Rattle.board_core.specs.Kept.{IsKept};
    ghost use Rattle.board_core.specs.Code.{cells_of};
    ghost use Rattle.board_core.specs.Sets.{AreSetsOf};
    ghost use Rattle.board_core.specs.Packed.{codes_for, sets_for, codes_back, sets_back};

    ghost view = { λ p. record { cells = cells_of p.codes; black = p.black; white = p.white; side = p.side } };

    ghost invariant = { λ p. IsKept (record { cells = cells_of p.codes; black = p.black; white = p.white; side = p.side }) × AreSetsOf p.sets (piece_at (cells_of p.codes)) };

    ghost inverse = { λ b. record { codes = codes_for b.cells; black = b.black; white = b.white; side = b.side; sets = sets_for b.cells } };

    ghost inverse_ok = { λ p known. λ i. record { codes = codes_back p.codes i; black = p.black; white = p.white; side = p.side; sets = sets_back p.sets (cells_of p.codes) known.1 i } };
}

impl Position {
    /// The position with these parts, of which it is known that they keep what every position
    /// keeps.
    pub(crate) fn kept(
        cells: &[Option<Piece>; 81],
        black: Hand,
        white: Hand,
        side: Side,
    ) -> Position
        requires { IsKept (record { cells = cells.now; black = black; white = white; side = side }) }
        ensures { result ≡ record { cells = cells.now; black = black; white = white; side = side } }
    {
        Position {
            codes: codes_of(cells),
            black,
            white,
            side,
            sets: Sets::of(cells),
        }
    }

    /// The piece on a square, where there is one.
    pub fn piece_at(&self, square: Square) -> Option<Piece>
        ensures { result ≡ piece_at self.now.cells square.number }
    {
        at(&self.codes, square)
    }

    /// A law: what every position keeps. Does nothing; whoever speaks of a position's board calls
    /// it to know this.
    pub fn laws(&self)
        ensures { IsKept self.now }
    {
        let _codes = &self.codes;
    }

    /// The codes of what stands on each square.
    pub(crate) fn codes(&self) -> &Codes
        ensures cells { cells_of result.now ≡ self.now.cells }
        ensures kept { IsKept self.now }
    {
        &self.codes
    }

    /// The position with this hand of a side, of which it is known that it keeps what every
    /// position keeps.
    pub(crate) fn with_hand(&self, side: Side, hand: Hand) -> Position
        requires { IsKept (with_hand self.now side hand) }
        ensures { result ≡ with_hand self.now side hand }
    {
        let mut changed = *self;
        match side {
            Side::Black => changed.black = hand,
            Side::White => changed.white = hand,
        }
        changed
    }

    /// The squares on which the side's pieces stand.
    pub fn occupied(&self, side: Side) -> Mask
        ensures { (s : ℕ) → holds result s ≡ is_of_side side (piece_at self.now.cells s) }
    {
        match side {
            Side::Black => self.sets.black,
            Side::White => self.sets.white,
        }
    }

    /// The squares that aren't empty.
    pub fn all_occupied(&self) -> Mask
        ensures { (s : ℕ) → holds result s ≡ is_some (piece_at self.now.cells s) }
    {
        self.sets.black.or(self.sets.white)
    }

    /// The squares on which kings stand, of both sides.
    pub fn kings(&self) -> Mask
        ensures { (s : ℕ) → holds result s ≡ is_king (piece_at self.now.cells s) }
    {
        self.sets.kings
    }

    /// The squares on which unpromoted pawns stand, of both sides.
    pub fn pawns(&self) -> Mask
        ensures { (s : ℕ) → holds result s ≡ is_pawn (piece_at self.now.cells s) }
    {
        self.sets.pawns
    }

    /// The squares on which pieces stand that slide, of both sides: lances that aren't promoted,
    /// bishops and rooks, promoted or not.
    pub fn sliders(&self) -> Mask
        ensures { (s : ℕ) → holds result s ≡ is_slider (piece_at self.now.cells s) }
    {
        self.sets.sliders
    }

    /// Whether two positions are one: the same piece or none on each square, the same hands, the
    /// same side to move. By their keys; takes no memory.
    pub fn is_same(&self, with: &Position) -> bool
        ensures { IsTrue result ↔ (self.now ≡ with.now) }
    {
        same_key(self, with)
    }

    /// The side to move.
    pub fn side(&self) -> Side
        ensures { result ≡ self.now.side }
    {
        self.side
    }

    /// The square of a side's king, where it has one.
    pub fn king_square(&self, side: Side) -> Option<Square>
        ensures found { IfSome result (λ s. is_king_of side (piece_at self.now.cells s.number)
            ≡ true) }
        ensures only { IfSome result (λ s. (t : ℕ) → is_king_of side (piece_at self.now.cells t)
            ≡ true → t ≡ s.number) }
        ensures none { IsNone result ↔ (kings_of self.now side ≡ 0) }
        ensures standing { (s : ℕ) → is_king_of side (piece_at self.now.cells s) ≡ true
            → IsSome result }
    {
        // A side has one king at most.
        self.laws();
        self.kings().and(self.occupied(side)).first()
    }

    /// A side's hand.
    pub fn hand(&self, side: Side) -> Hand
        ensures { result ≡ hand_of self.now side }
    {
        match side {
            Side::Black => self.black,
            Side::White => self.white,
        }
    }

    /// Takes the piece from a square, where there is one, off the board; the rest stays.
    pub fn take(&mut self, square: Square)
        ensures position { self.new ≡ with_cell self.old square.number None }
        ensures changes { ChangesCell self.old self.new square.number None }
    {
        self.codes[square.number as usize] = Code::of(None);
        self.sets = self.sets.with(square, None);
    }

    /// Puts a piece on an empty square. It must be one that could ever move from there, no second
    /// unpromoted pawn of its side on the file, and left over: the set has one more of its kind,
    /// or, of a king, the side has none.
    pub fn put(&mut self, square: Square, piece: Piece)
        requires empty { piece_at self.old.cells square.number ≡ None }
        requires left_over { piece.kind ≢ King
            → count_of self.old piece.kind < total_of piece.kind }
        requires king { piece.kind ≡ King → kings_of self.old piece.side ≡ 0 }
        requires alive { is_dead square.number (Some piece) ≡ false }
        requires pawn { is_pawn_of piece.side (Some piece) ≡ true → (s : ℕ) → s < 81 → file_of s
            ≡ file_of square.number → is_pawn_of piece.side (piece_at self.old.cells s) ≡ false }
        ensures position { self.new ≡ with_cell self.old square.number (Some piece) }
        ensures changes { ChangesCell self.old self.new square.number (Some piece) }
    {
        self.codes[square.number as usize] = Code::of(Some(piece));
        self.sets = self.sets.with(square, Some(piece));
    }

    /// Gives a side one more of a kind in hand, of which the set has one left over. No king goes
    /// into a hand.
    pub fn gain(&mut self, side: Side, kind: Kind)
        requires king { kind ≢ King }
        requires left_over { count_of self.old kind < total_of kind }
        ensures position { self.new
            ≡ with_hand self.old side (with_more (hand_of self.old side) kind) }
        ensures counts { (k : Kind) → count_of self.new k
            ≡ count_of self.old k + one_if (same_kind kind k) }
    {
        match side {
            Side::Black => self.black = self.black.plus(kind),
            Side::White => self.white = self.white.plus(kind),
        }
    }

    /// Takes one of a kind, of which there is one, out of a side's hand; the set has one left over
    /// then. It is no king, since no hand holds one.
    pub fn spend(&mut self, side: Side, kind: Kind)
        requires { 0 < hand_count (hand_of self.old side) kind }
        ensures position { self.new
            ≡ with_hand self.old side (with_less (hand_of self.old side) kind) }
        ensures counts { (k : Kind) → count_of self.new k + one_if (same_kind kind k)
            ≡ count_of self.old k }
        ensures left_over { count_of self.new kind < total_of kind }
        ensures king { kind ≢ King }
        ensures one_less { hand_count (hand_of self.new side) kind + 1
            ≡ hand_count (hand_of self.old side) kind }
        ensures other_counts { (k : Kind) → k ≢ kind → hand_count (hand_of self.new side) k
            ≡ hand_count (hand_of self.old side) k }
    {
        match side {
            Side::Black => self.black = self.black.minus(kind),
            Side::White => self.white = self.white.minus(kind),
        }
    }

    /// Gives the move to the other side.
    pub fn pass(&mut self)
        ensures { self.new ≡ with_turn_passed self.old }
    {
        self.side = self.side.other();
    }
}
