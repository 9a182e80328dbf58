//! The lines of a collection of problems: which of them hold one, and where.
//!
//! [`Lines`] goes over a text, and gives each [`Line`] that holds a problem, with its number and
//! its remark. Lines end with a line feed, perhaps behind a carriage return; the last may end with
//! the text. What begins with a tab in a line is a remark. A line that is then empty, or holds
//! spaces alone, or begins with `#`, is skipped. Nothing here takes memory, and no byte is read
//! more than a few times.
#![tactic(auto)]

mod cut;
mod line;
mod lines;

pub use line::{Line, MOST_PROBLEM_BYTES};
pub use lines::Lines;
