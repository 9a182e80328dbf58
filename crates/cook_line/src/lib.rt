//! Cooks along a line: what the cook reports along the moves of a solution say together.
//!
//! [`read_line`] reads a line of moves from a problem, checks and evasions in turn, and tells the
//! first part of its text that is none. A [`Stage`] is what is told at one of the attacker's turns
//! along it: the line's check, whether there is an evasion to it, and the cook report of the
//! position. [`line_word`] sums the stages up in one word, as a composer asks: is each move of the
//! solution the only one? What the word means is defined in `specs/Turns.antt`: [`line_laws`].
//! Nothing here searches or writes a text.
#![tactic(auto)]

mod ends;
mod laws;
mod line;
mod stage;
mod word;

pub use ends::LineEnd;
pub use laws::line_laws;
pub use line::read_line;
pub use stage::Stage;
pub use word::{has_unknown, line_word};
