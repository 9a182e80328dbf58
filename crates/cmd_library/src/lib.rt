//! What `solve --library` does: it reads the line of a problem and a library behind it, checks each
//! of the library's certificates for its own problem, and solves the problem from what they list.
//!
//! What the words ask for is `cmd_solve`'s [`Solve`](cmd_solve::Solve). [`solve_with_library`] is
//! one run, whose clauses are what it promises, in plain words first. A certificate that is refused
//! is the answer, and nobody searches.
#![tactic(auto)]

mod answer;
mod asked;
mod begun;
mod fault;
mod running;
mod solution;
mod text;

pub use answer::LibraryAnswer;
pub use asked::MOST_LIBRARY_BYTES;
pub use fault::LibraryTextFault;
pub use running::{solve_with_library, solve_with_library_alone};
pub use text::library_answer_text;
