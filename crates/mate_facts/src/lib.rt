//! What a mate is told by: entries, each a position with a rank and a move.
//!
//! An entry says that at its position, the attacker's to move, its move is a check, and that so the
//! position is a mate within its rank. When entries are borne out, `hand_dominance` says. Notes,
//! certificates and whoever checks them speak of these. Takes no memory.
#![tactic(auto)]

mod entry;
mod laws;
mod rank;

pub use entry::MateEntry;
pub use laws::entry_laws;
pub use rank::{MOST_RANK, Rank};
