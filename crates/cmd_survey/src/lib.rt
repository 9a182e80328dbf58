//! The command `survey`: it reads nothing, decides the problems that the generator makes of a range
//! of numbers, over threads, and tells how many are mates, have none, or were given up.
//!
//! What its words ask for is a [`SurveyRange`], which has its line of the command line and reads
//! them. What it finds is a [`Summary`], and [`survey`] is one run of it, whose clauses are what
//! the command promises, in plain words first.
#![tactic(auto)]

mod running;
mod summary;
mod text;
mod words;

pub use running::survey;
pub use summary::{Summary, Tallies};
pub use text::summary_text;
pub use words::SurveyRange;
