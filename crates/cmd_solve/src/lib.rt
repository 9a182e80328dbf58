//! The command `solve`: it reads the text of a problem, and tells that it is a mate, with a main
//! line, or that it is none, each with a certificate; or that it was given up, and why.
//!
//! What its words ask for is [`SolveWords`], which has its line of the command line and reads them:
//! a [`Solve`], which is a command of [`one_run`], and whether a library stands behind the problem.
//! [`solve`] is one run without a library, whose clauses are what the command promises, in plain
//! words first.
#![tactic(auto)]

mod asked;
mod running;
mod solution;
mod stops;
mod words;

pub use asked::Solve;
pub use running::{solve, solve_alone};
pub use solution::{Question, solve_problem};
pub use stops::{arm_all, arm_each};
pub use words::{SolveWords, search_asked, search_options};
