// What is said of a position that is a mate.
use crate::Rank;
use board_core::{Move, Position};

/// What is said of a position that is a mate, and what an accepted certificate bears out: at this
/// position of the attacker the move is a check after which each evasion leads to a position of
/// lower rank.
#[derive(Clone, Copy, Debug)]
pub struct MateEntry {
    /// The rank: an upper bound for the number of the attacker's moves up to the mate.
    pub rank: Rank,
    /// The attacker's move.
    pub by: Move,
    /// The position, with the attacker to move.
    pub at: Position,
}
