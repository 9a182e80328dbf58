//! What is found of a problem.
//!
//! [`read_problem`] takes a text for the problem that it stands for, and none stands for two
//! ([`problem_laws`]). A [`verdict`] is what the note says that a search ended with, with the
//! certificate that is extracted from it, unless that has more entries than a certificate is read
//! with.
#![tactic(auto)]

mod problem;
mod solution;

pub use problem::{problem_laws, read_problem};
pub use solution::verdict;
