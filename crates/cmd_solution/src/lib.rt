//! The command `solution`: it reads a KIF text with moves, and tells how many they are and whether
//! they end in mate.
//!
//! The moves have to be the attacker's checks and the defender's evasions in turn, from the problem
//! of the diagram ([`kif_moves::read_kif_moves`]). What its words ask for is a [`JudgeSolution`],
//! which has its line of the command line and reads them, and is a command of [`one_run`].
//! [`solution`] is one run of it, whose clauses are what the command promises.
#![tactic(auto)]

mod asked;
mod judging;
mod running;
mod verdict;
mod words;

pub use running::solution;
pub use verdict::{SolutionVerdict, verdict_text};
pub use words::JudgeSolution;
