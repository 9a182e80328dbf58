// What `cook` is asked, and what it is as a command.
use crate::{CookAnswer, CookFault, answer_text};
use cmd_solve::Solve;
use one_run::Command;
use problem_lines::MOST_PROBLEM_BYTES;
use std::alloc::{AllocError, Global};

/// What `cook` is asked: what `solve` is, of each of its searches; and perhaps a line of moves.
#[derive(Debug, Drop)]
pub struct Cook {
    /// The numbers of each search, the form of the problem, and how the searches are watched.
    pub solve: Solve,
    /// The line along which it is reported, as the words have it; none where the problem alone is.
    pub line: Option<String>,
}

impl Command for Cook {
    ghost use Rattle.cmd_cook.specs.Asked.{cook_in};
    ghost use Rattle.cmd_cook.specs.Meaning.{cook_meaning};

    type Answer = CookAnswer;

    type Fault = CookFault;

    ghost meaning = { λ asked. cook_meaning (cook_in asked) };

    fn limit(&self) -> usize {
        MOST_PROBLEM_BYTES
    }

    fn text(&self, alloc: Global, answer: &CookAnswer) -> Result<Vec<u8>, AllocError> {
        answer_text(alloc, answer)
    }
}
