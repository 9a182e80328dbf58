// Moves and their order.
ghost use Rattle.std.specs.Prelude.{◌≡◌, ◌↔◌, IsTrue};
ghost use Rattle.std.specs.Ordering.{nat_cmp};
ghost use Rattle.board_core.specs.Order.{order_of};

use crate::{Kind, Square};
use std::cmp::Ordering;

/// A move: of a piece on the board, perhaps promoting it, or of a piece from the hand (a drop).
/// Whether it may be made is a question to the rules.
///
/// Moves are ordered: board moves first, by origin, then destination, the unpromoted one first;
/// then the drops, by kind in the order P L N S G B R, each by square.
#[derive(Clone, Copy, PartialEq, Eq, PartialOrd, Ord, Debug)]
pub enum Move {
    /// A piece goes from a square to a square.
    Board {
        /// Where it stands.
        from: Square,
        /// Where it goes.
        to: Square,
        /// Whether it is promoted.
        promote: bool,
    },
    /// A piece in hand is put on a square, unpromoted.
    Drop {
        /// Its kind.
        kind: Kind,
        /// Where it is put.
        to: Square,
    },
}

impl Move {
    /// How two moves are ordered: as their places in the order of moves are. `<`, `cmp` and sorting
    /// agree with it.
    pub fn compare(self, with: Move) -> Ordering
        ensures { result ≡ nat_cmp (order_of self) (order_of with) }
    {
        self.cmp(&with)
    }

    /// Whether two moves are one: no two moves have one place in the order.
    pub fn is_same(self, with: Move) -> bool
        ensures same { IsTrue result ↔ (self ≡ with) }
        ensures place { IsTrue result ↔ (order_of self ≡ order_of with) }
    {
        self == with
    }
}
