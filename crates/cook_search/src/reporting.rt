// What is told of a problem.
ghost use Rattle.std.specs.Prelude.{◌≡◌, ◌≤◌, [], IfOk, length, map};
ghost use Rattle.search_gate.specs.Polls.{ArePolled};
ghost use Rattle.search_limits.specs.Settings.{settings_in};
ghost use Rattle.cook_search.specs.Found.{IsReportFound};

use crate::deciding::Means;
use crate::lines::line_on;
use crate::{CheckOnlooker, Ground};
use check_moves::checks;
use cook_report::Report;
use search_crew::Tables;
use search_gate::{Gate, Stop};
use std::alloc::AllocError;
use std::mem;
use std::sync::Wait;
use std::thread::Threads;
use worker_core::Crew;

// The lines on all checks, in their order. Errors: want of memory alone.
fn lines<R: Threads + Wait + AllocGlobal + Sync, G: Gate + CheckOnlooker, T: Stop + Drop>(
    ground: &Ground<'_, R, G>,
    means: &mut Means<T>,
) -> Result<Report, AllocError>
    requires stops { ground.now.settings.now.workers ≤ length means.old.stops.items }
    requires fresh { means.old.crews.items ≡ [] }
    ensures found { IfOk result
        (λ report. IsReportFound ground.now.problem.now.position
        (settings_in ground.now.settings.now)
        (map T.signal means.old.stops.items) (map T.signal means.new.stops.items) report
        means.new.crews.items) }
    ensures polled { ArePolled ground.now.settings.now.workers
        (map T.signal means.old.stops.items) (map T.signal means.new.stops.items) }
{
    let alloc = ground.rt.alloc();
    let problem = ground.problem;
    let listed = checks(alloc, problem, &problem.position)?;
    let checks = listed.as_slice();
    let mut lines = Vec::new(alloc);
    for (place, check) in checks.iter().enumerate() {
        ground.gate.begins(place + 1, checks.len());
        lines.push(line_on(ground, *check, means)?)?;
    }
    Ok(Report::new(lines))
}

/// Tells of each check of a problem, in the order of moves, whether it mates. The position behind
/// each evasion to it is searched in order, by a search of its own over an empty table with all the
/// settings' numbers, till one is no mate. Where all are mates, their certificates are joined;
/// where a search gave up and none was found to be no mate, or these would list more than
/// [`MOST_ENTRIES`](cert_text::MOST_ENTRIES) positions, the check is unknown, and why. Each search
/// polls the stops as [`search`](search_crew::search) does. Behind the report come the workers of
/// the searches that gave up, as they ended, one search after the other. Errors: want of memory
/// alone.
pub fn cook<R: Threads + Wait + AllocGlobal + Sync, G: Gate + CheckOnlooker, T: Stop + Drop>(
    ground: &Ground<'_, R, G>,
    stops: &mut Vec<T>,
) -> Result<(Report, Vec<Crew>), AllocError>
    // There is a stop for each worker.
    requires stops { ground.now.settings.now.workers ≤ length stops.old.items }
    // The report is valid; each check that it calls unknown has its reason; and the workers are
    // those of its searches that gave up.
    ensures found { IfOk result
        (λ told. IsReportFound ground.now.problem.now.position
        (settings_in ground.now.settings.now)
        (map T.signal stops.old.items) (map T.signal stops.new.items) told.0 told.1.items) }
    // Stops are polled, and nothing else; those beyond the workers' are as they were.
    ensures polled { ArePolled ground.now.settings.now.workers
        (map T.signal stops.old.items) (map T.signal stops.new.items) }
{
    let alloc = ground.rt.alloc();
    let mut means = Means {
        tables: Tables::new(),
        stops: mem::replace(stops, Vec::new(alloc)),
        crews: Vec::new(alloc),
    };
    let report = lines(ground, &mut means);
    let Means {
        stops: back,
        crews,
        ..
    } = means;
    *stops = back;
    Ok((report?, crews))
}
