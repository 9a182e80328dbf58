// A search with one worker.
ghost use Rattle.std.specs.Prelude.{◌≡◌, ◌≤◌, ℕ, IfOk, IfSome, IfNone, IsSome, ◌⊎◌, Some, None, All};
ghost use Rattle.search_gate.specs.Polls.{IsPolledForEach};
ghost use Rattle.search_limits.specs.Settings.{settings_in};
ghost use Rattle.visit_log.specs.Machine.{end_of};
ghost use Rattle.visit_log.specs.declared.words.WorkEnd.TheVariants.{Posted, NoMemory};
ghost use Rattle.search_pool.specs.End.{IsAlone, IsAloneDrawing, IsAloneUntil, IsDrawingFrom, IsSolution, IsSolved, HeedsStop};
ghost use Rattle.search_pool.specs.Inside.{IsWatched, HadAll, IsCauseOf, MayBegin, world_over};
ghost use Rattle.worker_core.specs.Port.{Suits};
ghost use Rattle.lone_port.specs.Lone.{alone_at_first, worker_at_first, book_of};

use crate::SearchEnd;
use crate::watched::Watched;
use lone_port::LonePort;
use notes::HEIGHT_LIMIT;
use search_gate::{Gate, OpenGate, QuietStop, Stop};
use search_limits::{Cause, Settings};
use shogi_rules::Problem;
use std::alloc::{AllocError, Global};
use visit_log::{WorkEnd, count_laws, visit_laws};
use worker_core::{Crew, Worker, work};

// Has the worker work over a table and a desk that are watched, until it has ended, and says how.
// They stay the same ones.
fn work_watched<G: Gate, T: Stop>(
    alloc: Global,
    problem: &Problem,
    settings: &Settings,
    watched: &mut Watched<'_, G, T>,
    worker: &mut Worker,
) -> WorkEnd
    requires begins { MayBegin (settings_in settings.now) watched.old.port.now }
    requires worker { worker.old ≡ worker_at_first problem.now.position 1 }
    requires suits { Suits worker.old (book_of watched.old.port.now) }
    ensures port { watched.new.port.ghost_name ≡ watched.old.port.ghost_name }
    ensures stop { watched.new.stop.ghost_name ≡ watched.old.stop.ghost_name }
    ensures way { IsWatched watched.old.port.now problem.now.position (settings_in settings.now)
        (T.signal watched.old.stop.now) (T.signal watched.new.stop.now) watched.new.port.now
        worker.new }
    ensures had { HadAll watched.new.port.now worker.new }
    ensures desk { watched.new.port.now.desk.position ≡ problem.now.position }
    ensures ended { end_of worker.new.state ≡ Some result }
{
    work(alloc, worker, watched)
}

// Has the worker work over the table and the desk until it has ended, and says how: each poll asks
// the stop, and the gate is passed behind each visit.
fn work_alone<G: Gate, T: Stop>(
    alloc: Global,
    problem: &Problem,
    settings: &Settings,
    port: &mut LonePort,
    worker: &mut Worker,
    gate: &G,
    stop: &mut T,
) -> WorkEnd
    requires begins { MayBegin (settings_in settings.now) port.old }
    requires worker { worker.old ≡ worker_at_first problem.now.position 1 }
    requires suits { Suits worker.old (book_of port.old) }
    ensures way { IsWatched port.old problem.now.position (settings_in settings.now)
        (T.signal stop.old) (T.signal stop.new) port.new worker.new }
    ensures had { HadAll port.new worker.new }
    ensures desk { port.new.desk.position ≡ problem.now.position }
    ensures ended { end_of worker.new.state ≡ Some result }
{
    let mut watched = Watched { port, gate, stop };
    work_watched(alloc, problem, settings, &mut watched, worker)
}

// Why a search gave up whose worker ended so; none where that was for want of memory, or since a
// note is posted.
fn cause_of(settings: &Settings, end: WorkEnd) -> Option<Cause>
    ensures cause { IfSome result (IsCauseOf (settings_in settings.now) end) }
    ensures none { IfNone result ((end ≡ Posted) ⊎ (end ≡ NoMemory)) }
{
    match end {
        WorkEnd::Spent => Some(Cause::Expansions(settings.expansions)),
        WorkEnd::NoRoom => Some(Cause::Room(settings.room)),
        WorkEnd::TooHigh => Some(Cause::Height(HEIGHT_LIMIT)),
        WorkEnd::Stopped => Some(Cause::Stopped(1)),
        WorkEnd::Posted | WorkEnd::NoMemory => None,
    }
}

// Searches a problem over a table and a desk of which nothing is drawn or claimed: has a worker
// work till it has ended, and tells what came of it.
pub(crate) fn search_from<G: Gate, T: Stop>(
    alloc: Global,
    problem: &Problem,
    settings: &Settings,
    port: &mut LonePort,
    gate: &G,
    stop: &mut T,
) -> Result<SearchEnd, AllocError>
    requires begins { MayBegin (settings_in settings.now) port.old }
    requires suits { (number : ℕ)
        → Suits (worker_at_first problem.now.position number) (book_of port.old) }
    ensures drawing { IfOk result (λ end.
        IsDrawingFrom (world_over port.old problem.now.position) (settings_in settings.now)
        (T.signal stop.old) (T.signal stop.new) end port.new.desk.drawn) }
    ensures solution { IfOk result (IsSolution problem.now.position) }
    // What was posted before anything happened is what it answers.
    ensures known { IfOk result (λ end. IsSome port.old.desk.posted → IsSolved end) }
    ensures heeds { IfOk result (λ end. port.old.desk.posted ≡ None
        → HeedsStop (T.signal stop.old) (T.signal stop.new) end) }
    ensures few { IfOk result (λ end. port.new.desk.drawn ≤ settings.now.expansions) }
    ensures polled { IfOk result (λ end. IsPolledForEach 0 port.new.desk.drawn
        (T.signal stop.old) (T.signal stop.new)) }
    ensures armed { (T.signal stop.new).armed ≡ (T.signal stop.old).armed }
    ensures arms { (T.signal stop.new).arms ≡ (T.signal stop.old).arms }
    ensures early { (T.signal stop.new).early ≡ (T.signal stop.old).early }
{
    let mut worker = Worker::make(alloc, problem, 1);
    let end = work_alone(alloc, problem, settings, port, &mut worker, gate, stop);
    port.laws();
    worker.laws();
    visit_laws();
    count_laws();
    if let Some(posted) = port.posted() {
        let note = posted.share()?;
        note.laws();
        return Ok(SearchEnd::Solved(note));
    }
    let Some(cause) = cause_of(settings, end) else {
        return Err(AllocError);
    };
    Ok(SearchEnd::Unknown(cause, Crew::new(vec![in alloc; worker]?)))
}

// Searches a problem over a table and a desk that know nothing yet: has a worker work till it has
// ended, and tells what came of it.
pub(crate) fn search_over<G: Gate, T: Stop>(
    alloc: Global,
    problem: &Problem,
    settings: &Settings,
    port: &mut LonePort,
    gate: &G,
    stop: &mut T,
) -> Result<SearchEnd, AllocError>
    requires made { port.old
        ≡ alone_at_first problem.now.position settings.now.expansions settings.now.room
        settings.now.rows settings.now.lends }
    requires suits { (number : ℕ)
        → Suits (worker_at_first problem.now.position number) (book_of port.old) }
    ensures alone { IfOk result
        (IsAloneUntil problem.now.position (settings_in settings.now) (T.signal stop.old)
        (T.signal stop.new)) }
    ensures drawing { IfOk result (λ end.
        IsAloneDrawing problem.now.position (settings_in settings.now) (T.signal stop.old)
        (T.signal stop.new) end port.new.desk.drawn) }
    ensures solution { IfOk result (IsSolution problem.now.position) }
    ensures heeds { IfOk result (HeedsStop (T.signal stop.old) (T.signal stop.new)) }
    ensures few { IfOk result (λ end. port.new.desk.drawn ≤ settings.now.expansions) }
    ensures polled { IfOk result (λ end. IsPolledForEach 0 port.new.desk.drawn
        (T.signal stop.old) (T.signal stop.new)) }
    ensures armed { (T.signal stop.new).armed ≡ (T.signal stop.old).armed }
    ensures arms { (T.signal stop.new).arms ≡ (T.signal stop.old).arms }
    ensures early { (T.signal stop.new).early ≡ (T.signal stop.old).early }
{
    search_from(alloc, problem, settings, port, gate, stop)
}

/// Searches a problem with one worker, whatever the settings say of workers: it works under its own
/// steps, and what the stop signals, till it has ended. Where a note is posted, that note answers
/// the problem; else the search gave up, for the cause that the worker's end names, and the worker
/// comes with it. The gate is passed for each visit, as worker 1. The stop is polled before each
/// visit is drawn; where it says that the worker is to stop, the search ends as stopped. Takes the
/// table's memory at once: about 1 KB a row. Errors: want of memory alone. (df-pn: Nagai 2002.)
pub fn search_alone_until<G: Gate, T: Stop>(
    alloc: Global,
    problem: &Problem,
    settings: &Settings,
    gate: &G,
    stop: &mut T,
) -> Result<SearchEnd, AllocError>
    // It answers what the world of one worker does, in which a stop is signalled only where the
    // stop signalled, which is polled as often as the worker polls.
    ensures alone { IfOk result
        (IsAloneUntil problem.now.position (settings_in settings.now) (T.signal stop.old)
        (T.signal stop.new)) }
    // A note that solves it is valid, holds on every path, is about the problem's position and for
    // its attacker.
    ensures solution { IfOk result (IsSolution problem.now.position) }
    // It ends as stopped exactly where the stop signalled, which it does once; then it is polled no
    // more.
    ensures heeds { IfOk result (HeedsStop (T.signal stop.old) (T.signal stop.new)) }
    // A stop is polled, and nothing else.
    ensures armed { (T.signal stop.new).armed ≡ (T.signal stop.old).armed }
    ensures arms { (T.signal stop.new).arms ≡ (T.signal stop.old).arms }
    ensures early { (T.signal stop.new).early ≡ (T.signal stop.old).early }
{
    let mut port = LonePort::make(alloc, problem, settings)?;
    search_over(alloc, problem, settings, &mut port, gate, stop)
}

/// The same, and how many visits were drawn. Errors: want of memory alone.
pub fn search_alone_counted<G: Gate, T: Stop>(
    alloc: Global,
    problem: &Problem,
    settings: &Settings,
    gate: &G,
    stop: &mut T,
) -> Result<(SearchEnd, u64), AllocError>
    ensures alone { IfOk result (λ found.
        IsAloneDrawing problem.now.position (settings_in settings.now) (T.signal stop.old)
        (T.signal stop.new) found.0 found.1) }
    ensures solution { IfOk result (λ found. IsSolution problem.now.position found.0) }
    ensures heeds { IfOk result (λ found.
        HeedsStop (T.signal stop.old) (T.signal stop.new) found.0) }
    // No more visits were drawn than the settings say; and the stop was polled for each of them.
    ensures few { IfOk result (λ found. found.1 ≤ settings.now.expansions) }
    ensures polled { IfOk result (λ found. IsPolledForEach 0 found.1 (T.signal stop.old)
        (T.signal stop.new)) }
    // A stop is polled, and nothing else.
    ensures armed { (T.signal stop.new).armed ≡ (T.signal stop.old).armed }
    ensures arms { (T.signal stop.new).arms ≡ (T.signal stop.old).arms }
    ensures early { (T.signal stop.new).early ≡ (T.signal stop.old).early }
{
    let mut port = LonePort::make(alloc, problem, settings)?;
    let end = search_over(alloc, problem, settings, &mut port, gate, stop)?;
    Ok((end, port.drawn()))
}

/// As [`search_alone_until`] with a stop that never signals: it answers what the world of one
/// worker does under its own steps. Errors: want of memory alone.
pub fn search_alone_gated<G: Gate>(
    alloc: Global,
    problem: &Problem,
    settings: &Settings,
    gate: &G,
) -> Result<SearchEnd, AllocError>
    ensures alone { IfOk result (IsAlone problem.now.position (settings_in settings.now)) }
    ensures solution { IfOk result (IsSolution problem.now.position) }
{
    search_alone_until(alloc, problem, settings, gate, &mut QuietStop::new())
}

/// The same with a gate that holds nobody up. Errors: want of memory alone.
pub fn search_alone(
    alloc: Global,
    problem: &Problem,
    settings: &Settings,
) -> Result<SearchEnd, AllocError>
    ensures alone { IfOk result (IsAlone problem.now.position (settings_in settings.now)) }
    ensures solution { IfOk result (IsSolution problem.now.position) }
{
    search_alone_gated(alloc, problem, settings, &OpenGate)
}
