//! The checks at a position: exactly the moves that the tsume rule allows the attacker, each once,
//! in the order of moves; and how many they are.
//!
//! No move is tried but the drop of a pawn that checks. The squares from which a piece would give
//! check are found from the defender's king backwards, and the pieces whose move opens a line to
//! him beside them; of these squares `legal_moves` keeps those to which the piece may go.
#![tactic(auto)]

mod aim;
mod aiming;
mod counting;
mod listing;

pub use counting::count_checks;
pub use listing::{checks, checks_into};
