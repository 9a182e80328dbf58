// What `solve` is asked, and what it is as a command.
use app_texts::{ProblemFault, Solution, solution_text};
use one_run::Command;
use problem_lines::MOST_PROBLEM_BYTES;
use search_limits::Settings;
use std::alloc::{AllocError, Global};
use tsume_words::{ProblemForm, Watch};

/// What `solve` is asked.
#[derive(Clone, Copy, Debug, PartialEq, Eq)]
pub struct Solve {
    /// The numbers of its search.
    pub settings: Settings,
    /// How the problem is made of the text.
    pub form: ProblemForm,
    /// How the search is watched.
    pub watch: Watch,
}

impl Command for Solve {
    ghost use Rattle.cmd_solve.specs.Meaning.{solve_meaning};
    ghost use Rattle.cmd_solve.specs.Asked.{solve_in};

    type Answer = Solution;

    type Fault = ProblemFault;

    ghost meaning = { λ asked. solve_meaning (solve_in asked) };

    fn limit(&self) -> usize {
        MOST_PROBLEM_BYTES
    }

    fn text(&self, alloc: Global, answer: &Solution) -> Result<Vec<u8>, AllocError> {
        solution_text(alloc, answer)
    }
}
