// Which lines are decided side by side, and by whom.
ghost use Rattle.std.specs.Prelude.{◌≡◌, ◌≤◌, ◌<◌, All, IfOk, length, map, take};
ghost use Rattle.cmd_collection.specs.Words.{collection_in};
ghost use Rattle.search_limits.specs.Settings.{settings_in};
ghost use Rattle.cmd_collection.specs.Inside.{IsReportOn};

use crate::deciding::Deciding;
use crate::line_jobs::reports_by;
use crate::{CollectionForm, Onlooker, Reported};
use problem_lines::Line;
use search_pool::Table;
use side_by_side::{MOST_MEMBERS, Team, Until};
use std::alloc::{AllocError, Global};
use std::collections::VecDeque;
use std::thread::Threads;

// Once a round has gone on for so many milliseconds no thread takes another line, so that a reader
// sees lines about as often, but for those that take longer.
const ROUND: u64 = 1_000;

// How many lines a round has for each thread at most, whose reports it keeps.
const MOST_LINES_A_THREAD: usize = 32;

/// A team that decides lines in rounds.
#[derive(Drop)]
pub(crate) struct Rounds<'a> {
    team: Team<Table, Reported<'a>>,
}

// When a round that began then takes no further line.
#[derive(Drop)]
struct RoundClock<'b, O> {
    onlooker: &'b O,
    begun: u64,
}

impl<'b, O: Onlooker> Until for RoundClock<'b, O> {
    fn is_over(&self) -> bool {
        self.onlooker.now().saturating_sub(self.begun) >= ROUND
    }
}

// As many threads as the words say, or else as many as there can be.
fn most_threads(form: &CollectionForm) -> usize {
    match form.threads {
        Some(threads) => threads as usize,
        None => MOST_MEMBERS,
    }
}

// Tells who looks on that a round begins, where that is asked for.
fn begin_round<O: Onlooker>(deciding: &Deciding<'_, O>) {
    if deciding.form.progress {
        deciding.onlooker.begin_round();
    }
}

// Tells who looks on what became of the lines of a round, where that is asked for.
fn see_all<O: Onlooker>(deciding: &Deciding<'_, O>, all: &[Reported<'_>]) {
    if deciding.form.progress {
        for one in all {
            deciding.onlooker.see(&one.report);
        }
    }
}

impl<'a> Rounds<'a> {
    /// Before the first round. Takes memory for each thread's place. Errors: want of memory alone.
    pub(crate) fn new<R: Threads>(
        rt: &R,
        alloc: Global,
        form: &CollectionForm,
    ) -> Result<Rounds<'a>, AllocError> {
        let team = Team::new(rt, alloc, most_threads(form))?;
        Ok(Rounds { team })
    }

    /// How many lines a round has at most, at least one.
    pub(crate) fn most(&self) -> usize
        ensures { 1 ≤ result }
    {
        self.team.size().saturating_mul(MOST_LINES_A_THREAD)
    }

    /// A round: the reports on the first of these lines, in their order, as many as there was time
    /// for, and at least one where there are lines. Errors: want of memory alone.
    pub(crate) fn decided<R: Threads + Sync, O: Onlooker>(
        &mut self,
        rt: &R,
        alloc: Global,
        deciding: &Deciding<'_, O>,
        lines: &[Line<'a>],
    ) -> Result<VecDeque<Reported<'a>>, AllocError>
        ensures lines { IfOk result
            (λ all. map (λ one. one.line) all.items ≡ take (length all.items) lines.now) }
        ensures first { IfOk result (λ all. length all.items ≤ length lines.now) }
        ensures some { IfOk result (λ all. 0 < length lines.now → 0 < length all.items) }
        ensures reports { IfOk result
            (λ all. All (λ one. IsReportOn (settings_in deciding.now.settings.now)
            (collection_in deciding.now.form.now) one.line one.report) all.items) }
    {
        begin_round(deciding);
        let clock = RoundClock {
            onlooker: deciding.onlooker,
            begun: deciding.onlooker.now(),
        };
        let all = reports_by(rt, alloc, &mut self.team, deciding, lines, &clock)?;
        see_all(deciding, &all);
        Ok(VecDeque::from(all))
    }
}
