//! The evasions at a position: exactly the legal moves of the defender, each once, in the order of
//! moves; and how many there are, drops on one square counted once.
//!
//! No move is tried but the drop of a pawn that might mate. In check the king goes where nothing
//! attacks him; where one piece alone checks, other pieces take it or stand between, and drops
//! stand between. Where the defender isn't in check, every legal move is an evasion.
#![tactic(auto)]

mod counting;
mod listing;

pub use counting::count_answers;
pub use listing::{answers, answers_into};
