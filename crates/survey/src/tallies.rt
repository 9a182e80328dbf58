// Many problems.
ghost use Rattle.std.specs.Prelude.{◌≤◌, ◌+◌, IfOk};
ghost use Rattle.search_limits.specs.declared.expansions.TheConstants.{MOST_EXPANSIONS};
ghost use Rattle.search_limits.specs.declared.many.TheConstants.{MOST_SEED, MOST_COUNT};
ghost use Rattle.survey.specs.Tally.{AreTallied};

use crate::asked::Asked;
use search_pool::Tally;
use side_by_side::Team;
use std::alloc::{AllocError, Global};
use std::thread::Threads;

/// What the searches of so many problems of the generator come to, those of the seed and the
/// numbers behind it, in this order; the seed is at most [`MOST_SEED`](search_limits::MOST_SEED),
/// and they are at most [`MOST_COUNT`](search_limits::MOST_COUNT). Each search has one worker, so
/// many visits (1 to [`MOST_EXPANSIONS`](search_limits::MOST_EXPANSIONS): visits of positions), all
/// the room for notes that there can be, and a table of 1,024 rows. They are decided side by side
/// by a [`Team`]: there is a thread for each processor that the system has, up to
/// [`MOST_MEMBERS`](side_by_side::MOST_MEMBERS), with a table of about 1 MB, and each takes the
/// next problem that no other has taken; that changes no tally (no clause says it). What is still
/// open when the threads are over, since memory was wanting, is searched then, one after another.
/// Errors: want of memory alone.
pub fn survey<R: Threads + Sync>(
    rt: &R,
    alloc: Global,
    seed: u64,
    count: u32,
    expansions: u64,
) -> Result<Vec<Tally>, AllocError>
    requires seed { seed ≤ MOST_SEED }
    requires count { count ≤ MOST_COUNT }
    requires expansions_from { 1 ≤ expansions }
    requires expansions_to { expansions ≤ MOST_EXPANSIONS }
    ensures { IfOk result (λ tallies. AreTallied seed count expansions tallies.items) }
{
    let asked = Asked {
        seed,
        count,
        expansions,
    };
    Team::new(rt, alloc, asked.count as usize)?.answers(rt, alloc, &asked)
}
