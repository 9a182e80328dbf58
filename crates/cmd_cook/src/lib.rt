//! The command `cook`: it reads the text of a problem, and tells of each first check whether it
//! mates, so that a composer sees whether the solution's first move is the only one; or the same at
//! each turn of the attacker along a line of moves.
//!
//! What its words ask for is a [`Cook`], which is asked what `solve` is and perhaps for a line, has
//! its line of the command line and reads them, and is a command of [`one_run`]. [`cook`] is one
//! run of it, whose clauses are what the command promises, in plain words first. What it writes is
//! a report (`cook_report`), or several (`cook_line`), each line of which anybody can check.
#![tactic(auto)]

mod answer;
mod asked;
mod deciding;
mod fault;
mod running;
mod text;
mod words;

pub use answer::{CookAnswer, ToldLine, ToldReport};
pub use asked::Cook;
pub use cook_search::CheckOnlooker;
pub use fault::CookFault;
pub use running::cook;
pub use text::{along_text, answer_text, report_text};
