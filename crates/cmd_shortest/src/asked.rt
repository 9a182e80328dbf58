// What `shortest` is asked, and what it is as a command.
ghost use Rattle.search_limits.specs.Sizes.{IsFromTo};
ghost use Rattle.shortest_mate.specs.declared.search.TheConstants.{MOST_LIMIT};

use crate::{ShortestAnswer, shortest_text};
use app_texts::ProblemFault;
use one_run::Command;
use problem_lines::MOST_PROBLEM_BYTES;
use search_limits::Expansions;
use std::alloc::{AllocError, Global};
use tsume_words::{ProblemForm, Watch};

/// What `shortest` is asked.
#[derive(Clone, Copy, Debug, PartialEq, Eq)]
pub struct Shortest {
    /// Up to how many of the attacker's moves a mate is looked for, 1 to
    /// [`MOST_LIMIT`](shortest_mate::MOST_LIMIT).
    pub limit: u32,
    /// How many visits of positions it may make before it gives up.
    pub expansions: Expansions,
    /// How the problem is made of the text.
    pub form: ProblemForm,
    /// How the search is watched.
    pub watch: Watch,
    pub ghost limit_in_range: { IsFromTo 1 MOST_LIMIT limit },
}

impl Command for Shortest {
    ghost use Rattle.cmd_shortest.specs.Asked.{shortest_in};
    ghost use Rattle.cmd_shortest.specs.Meaning.{shortest_meaning};

    type Answer = ShortestAnswer;

    type Fault = ProblemFault;

    ghost meaning = { λ asked. shortest_meaning (shortest_in asked) };

    fn limit(&self) -> usize {
        MOST_PROBLEM_BYTES
    }

    fn text(&self, alloc: Global, answer: &ShortestAnswer) -> Result<Vec<u8>, AllocError> {
        shortest_text(alloc, answer)
    }
}
