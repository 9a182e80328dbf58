// What is known of a position.
use board_core::Move;
use mate_facts::MOST_RANK;

/// More than any number of moves.
pub const NEVER: u32 = MOST_RANK + 1;

/// What is known of how many of the attacker's moves a mate from a position takes, if there is one.
#[derive(Clone, Copy, Debug)]
pub struct Fact {
    /// It takes so many at least. [`NEVER`]: there is none.
    pub least: u32,
    /// It takes so many at most. [`NEVER`]: none is known.
    pub most: u32,
    /// Where the attacker is to move, the check that mates so fast; where the defender is, the
    /// evasion that holds out so long.
    pub by: Option<Move>,
}
