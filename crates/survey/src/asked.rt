// The searches of a survey, as jobs that are done side by side.
ghost use Rattle.std.specs.Prelude.{◌≤◌};
ghost use Rattle.search_limits.specs.declared.expansions.TheConstants.{MOST_EXPANSIONS};
ghost use Rattle.search_limits.specs.declared.many.TheConstants.{MOST_SEED};

use crate::decide::decide;
use problem_gen::problem_of;
use search_pool::{Table, Tally};
use side_by_side::Jobs;
use std::alloc::{AllocError, Global};

/// The problems of a survey, those of a number and of the numbers behind it, and how many visits
/// each may use.
#[derive(Clone, Copy)]
pub(crate) struct Asked {
    pub(crate) seed: u64,
    pub(crate) count: u32,
    pub(crate) expansions: u64,
    pub(crate) ghost seed_within: { seed ≤ MOST_SEED },
    pub(crate) ghost some: { 1 ≤ expansions },
    pub(crate) ghost within: { expansions ≤ MOST_EXPANSIONS },
}

// The problem of each number is searched over the thread's table.
impl Jobs for Asked {
    ghost use Rattle.std.specs.Prelude.{◌+◌, ⊤};
    ghost use Rattle.survey.specs.Tally.{IsTallied};

    type Tools = Table;

    type Answer = Tally;

    ghost is_ready = { λ jobs. ⊤ };

    ghost size = { λ asked. asked.count };

    ghost is_answer = { λ asked number tally. IsTallied asked.expansions (asked.seed + number) tally };

    fn count(&self) -> usize {
        self.count as usize
    }

    fn tools(&self) -> Table {
        Table::new()
    }

    fn answer(&self, alloc: Global, tools: &mut Table, number: usize) -> Result<Tally, AllocError> {
        let problem = problem_of(self.seed + number as u64);
        decide(alloc, tools, &problem, self.expansions)
    }
}
