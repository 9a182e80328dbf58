// Where a piece may go.
use bit_boards::Mask;

/// The squares to which a piece goes: unpromoted, and promoted by this move.
#[derive(Clone, Copy)]
pub struct Landings {
    /// Where it stays as it is.
    pub plain: Mask,
    /// Where it is promoted.
    pub promoted: Mask,
}

impl Landings {
    ghost use Rattle.std.specs.Prelude.{◌≡◌, ◌<◌, ℕ, nat_lt};
    ghost use Rattle.bit_boards.specs.Mask.{holds};

    /// All squares, both ways.
    pub fn full() -> Landings
        ensures plain { (s : ℕ) → holds result.plain s ≡ nat_lt s 81 }
        ensures promoted { (s : ℕ) → holds result.promoted s ≡ nat_lt s 81 }
    {
        Landings {
            plain: Mask::full(),
            promoted: Mask::full(),
        }
    }
}
