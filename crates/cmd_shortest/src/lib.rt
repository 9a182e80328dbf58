//! The command `shortest`: it reads the text of a problem, and tells how many of the attacker's
//! moves its shortest mate takes, or that there is none up to a limit, so that anybody can check
//! it; or that it was given up, and why.
//!
//! What its words ask for is a [`Shortest`], which has its line of the command line and reads them,
//! and is a command of [`one_run`]. [`shortest`] is one run of it, whose clauses are what the
//! command promises, in plain words first. What it writes is what `check --bound` reads.
#![tactic(auto)]

mod answer;
mod asked;
mod deciding;
mod running;
mod text;
mod words;

pub use answer::ShortestAnswer;
pub use asked::Shortest;
pub use running::shortest;
pub use shortest_mate::LengthOnlooker;
pub use text::shortest_text;
