// The pieces that a side holds.
ghost use Rattle.std.specs.Prelude.{◌≡◌, ◌≢◌, ◌<◌, ◌≤◌, length, replicate};
ghost use Rattle.bit_boards.specs.Kind.{place_of};
ghost use Rattle.board_core.specs.Board.{hand_count, with_more, with_less};
ghost use Rattle.bit_boards.specs.declared.piece.Kind.TheVariants.{King};

use crate::Kind;
use std::marker::Model;

/// The pieces that a side holds in hand: a count for each kind, in the order P L N S G B R. A king
/// is never in hand. Contracts see the list of the seven counts.
#[derive(Clone, Copy, PartialEq, Eq, Debug)]
pub struct Hand([u8; 7]);

impl Model for Hand {
    ghost use Rattle.std.specs.Prelude.{ℕ, List, ◌≡◌, length};

    ghost Value = { List ℕ };

    ghost view = { λ h. h.0 };

    ghost invariant = { λ h. length h.0 ≡ 7 };

    ghost inverse = { λ xs. record { 0 = xs } };
}

fn place(kind: Kind) -> usize
    requires { kind ≢ King }
    ensures place { result ≡ place_of kind }
    ensures within { result < 7 }
{
    kind.place() as usize
}

impl Hand {
    /// The hand with these counts, in the order P L N S G B R.
    pub fn of(counts: [u8; 7]) -> Hand
        ensures { result ≡ counts }
    {
        Hand(counts)
    }

    /// The empty hand.
    pub fn empty() -> Hand
        ensures { result ≡ replicate 7 0 }
    {
        Hand([0; 7])
    }

    /// The seven counts, in the order P L N S G B R.
    pub fn counts(self) -> [u8; 7]
        ensures counts { result ≡ self }
        ensures seven { length self ≡ 7 }
    {
        self.0
    }

    /// A law: a hand has seven counts. Does nothing; whoever speaks of its counts calls it to know
    /// this.
    pub fn laws(self)
        ensures { length self ≡ 7 }
    {
        let _counts = self.0;
    }

    /// How many pieces of a kind, which isn't the king, it holds.
    pub fn count(self, kind: Kind) -> u8
        requires { kind ≢ King }
        ensures { result ≡ hand_count self kind }
    {
        self.0[place(kind)]
    }

    /// The hand with one more of a kind, which isn't the king. A hand takes at most 255 of a kind.
    pub fn plus(self, kind: Kind) -> Hand
        requires king { kind ≢ King }
        requires room { hand_count self kind < 255 }
        ensures { result ≡ with_more self kind }
    {
        let mut counts = self.0;
        let at = place(kind);
        counts[at] += 1;
        Hand(counts)
    }

    /// The hand with one less of a kind, which isn't the king and of which it holds one.
    pub fn minus(self, kind: Kind) -> Hand
        requires king { kind ≢ King }
        requires some { 0 < hand_count self kind }
        ensures { result ≡ with_less self kind }
    {
        let mut counts = self.0;
        let at = place(kind);
        counts[at] -= 1;
        Hand(counts)
    }
}
