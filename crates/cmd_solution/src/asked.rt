// What `solution` is as a command.
use crate::{JudgeSolution, SolutionVerdict, verdict_text};
use kif_moves::KifMovesFault;
use one_run::Command;
use problem_lines::MOST_PROBLEM_BYTES;
use std::alloc::{AllocError, Global};

impl Command for JudgeSolution {
    ghost use Rattle.cmd_solution.specs.Meaning.{solution_meaning};

    type Answer = SolutionVerdict;

    type Fault = KifMovesFault;

    ghost meaning = { λ asked. solution_meaning };

    fn limit(&self) -> usize {
        MOST_PROBLEM_BYTES
    }

    fn text(&self, alloc: Global, answer: &SolutionVerdict) -> Result<Vec<u8>, AllocError> {
        verdict_text(alloc, answer)
    }
}
