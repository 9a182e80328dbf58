//! A problem and the moves of its solution from a KIF text, in UTF-8.
//!
//! [`read_kif_moves`] reads the problem from the diagram before `手数----`, as
//! [`kif_text::read_kif`] does, and the moves from the lines behind it; they are the attacker's
//! checks and the defender's evasions in turn. Any other text has a first fault, with its line.
#![tactic(auto)]

mod characters;
mod fault;
mod judge;
mod laws;
mod played;
mod read;
mod word;

pub use fault::{KifMovesEnd, KifMovesFault};
pub use laws::kif_moves_laws;
pub use read::{KifSolution, read_kif_moves};
