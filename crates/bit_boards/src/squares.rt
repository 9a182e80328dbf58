// The squares of a set, one by one.
ghost use Rattle.std.specs.Prelude.{◌≡◌};
ghost use Rattle.std.specs.Iterator.{YieldsFirstBy, item_count};
ghost use Rattle.bit_boards.specs.Mask.{squares_of};

use crate::{Mask, Square};

/// The squares of a set, in rising order of their numbers, each once.
#[derive(Drop)]
pub struct Squares {
    left: Mask,
}

impl Mask {
    /// Goes over its squares in rising order of their numbers, each once.
    pub fn squares(self) -> Squares
        ensures { result.left ≡ self }
    {
        Squares { left: self }
    }
}

impl Iterator for Squares {
    type Item = Square;

    ghost next_gives = { YieldsFirstBy (λ square. square.number) (λ s. squares_of s.left) };

    ghost remaining = { item_count (λ s. squares_of s.left) };

    fn next(&mut self) -> Option<Square> {
        self.left.pop_first()
    }
}
