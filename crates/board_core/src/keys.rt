// Keys: what a table finds a position by, and how they change as a position does.
ghost use Rattle.std.specs.Prelude.{◌≡◌, ◌<◌, length};
ghost use Rattle.board_core.specs.Board.{Board, piece_at, hand_count, hand_of, with_more, with_less, with_cell, with_hand, with_turn_passed};
ghost use Rattle.board_core.specs.Kept.{IsKept};
ghost use Rattle.board_core.specs.Key.{key_of};

use crate::pack::{changed_word, one_in_hand};
use crate::{Kind, Piece, Side, Square};

/// The key of a position: eight words; no two positions have the same eight. Made by
/// [`key`](crate::key), or from the key of another position by the changes that lead from that one
/// to this. Between two changes it is the key of a board that may be no position, as with a
/// captured piece in the hand and still on its square.
#[derive(Clone, Copy, PartialEq, Eq, PartialOrd, Ord, Hash, Debug)]
pub struct Key(pub [u64; 8]);

impl Key {
    /// Makes the key that of the board with another content of a square, which held `taken` and now
    /// holds `put`. One word changes, in five bits. Takes no memory.
    pub fn replace(&mut self, square: Square, taken: Option<Piece>, put: Option<Piece>)
        ensures { (b : Board) → length b.cells ≡ 81 → self.old.0 ≡ key_of b
            → piece_at b.cells square.number ≡ taken → self.new.0
            ≡ key_of (with_cell b square.number put) }
    {
        let word = (square.number / 12) as usize;
        let place = square.number % 12;
        self.0[word] = changed_word(self.0[word], place, taken, put);
    }

    /// Makes the key of a position's board that of the board with one more of a kind in a side's
    /// hand. A king goes into no hand, and changes nothing here. Takes no memory.
    pub fn gain(&mut self, side: Side, kind: Kind)
        ensures { (b : Board) → IsKept b → self.old.0 ≡ key_of b → self.new.0
            ≡ key_of (with_hand b side (with_more (hand_of b side) kind)) }
    {
        self.0[7] = self.0[7].wrapping_add(one_in_hand(side, kind));
    }

    /// Makes the key of a position's board that of the board with one less of a kind, of which
    /// there is one, in a side's hand. Takes no memory.
    pub fn spend(&mut self, side: Side, kind: Kind)
        ensures { (b : Board) → IsKept b → self.old.0 ≡ key_of b
            → 0 < hand_count (hand_of b side) kind → self.new.0
            ≡ key_of (with_hand b side (with_less (hand_of b side) kind)) }
    {
        self.0[7] = self.0[7].wrapping_sub(one_in_hand(side, kind));
    }

    /// Makes the key of a position's board that of the board with the other side to move; `side` is
    /// to move before. Takes no memory.
    pub fn pass(&mut self, side: Side)
        ensures { (b : Board) → IsKept b → self.old.0 ≡ key_of b → b.side ≡ side → self.new.0
            ≡ key_of (with_turn_passed b) }
    {
        match side {
            Side::Black => self.0[7] = self.0[7].wrapping_add(1 << 42),
            Side::White => self.0[7] = self.0[7].wrapping_sub(1 << 42),
        }
    }
}
