// A table for many searches, one after the other.
ghost use Rattle.std.specs.Prelude.{◌≡◌, ℕ, IfOk};
ghost use Rattle.search_limits.specs.Settings.{settings_in};
ghost use Rattle.worker_core.specs.Port.{Suits};
ghost use Rattle.lone_port.specs.Lone.{alone_at_first, worker_at_first, book_of};
ghost use Rattle.search_pool.specs.End.{HeedsStop, IsAlone, IsAloneUntil, IsSolution};

use crate::SearchEnd;
use crate::alone::search_over;
use lone_port::LonePort;
use search_gate::{Gate, OpenGate, QuietStop, Stop};
use search_limits::Settings;
use shogi_rules::Problem;
use std::alloc::{AllocError, Global};

/// A table that searches use one after the other, so that its memory is taken once. It is emptied
/// for each, so none knows what another found.
#[derive(Drop)]
pub struct Table {
    port: Option<LonePort>,
}

// A table of the settings' rows that knows nothing: the one that is at hand, emptied, or one that
// is made.
fn ready(
    alloc: Global,
    at_hand: Option<LonePort>,
    problem: &Problem,
    settings: &Settings,
) -> Result<LonePort, AllocError>
    ensures made { IfOk result (λ port. port
        ≡ alone_at_first problem.now.position settings.now.expansions settings.now.room
        settings.now.rows settings.now.lends) }
    ensures suits { IfOk result (λ port. (number : ℕ)
        → Suits (worker_at_first problem.now.position number) (book_of port)) }
{
    if let Some(mut port) = at_hand {
        if port.rows() as u64 == settings.rows {
            port.renew(problem, settings);
            return Ok(port);
        }
    }
    LonePort::make(alloc, problem, settings)
}

impl Table {
    /// No table yet: the first search makes it. Takes no memory.
    pub fn new() -> Table {
        Table { port: None }
    }

    /// Searches a problem with one worker over this table, emptied before, in the time of the rows
    /// that have entries: as [`search_alone`](crate::search_alone), it answers what the world of
    /// one worker does under its own steps. Where the settings want another number of rows, the
    /// table is made anew: about 1 KB a row. Errors: want of memory alone.
    pub fn search(
        &mut self,
        alloc: Global,
        problem: &Problem,
        settings: &Settings,
    ) -> Result<SearchEnd, AllocError>
        ensures alone { IfOk result (IsAlone problem.now.position (settings_in settings.now)) }
        ensures solution { IfOk result (IsSolution problem.now.position) }
    {
        let mut port = ready(alloc, self.port.take(), problem, settings)?;
        let end = search_quietly(alloc, problem, settings, &mut port);
        self.port = Some(port);
        end
    }

    /// The same with a gate, which is passed for each visit as worker 1, and a stop, which is
    /// polled before each: as [`search_alone_until`](crate::search_alone_until). Errors: want of
    /// memory alone.
    pub fn search_until<G: Gate, T: Stop>(
        &mut self,
        alloc: Global,
        problem: &Problem,
        settings: &Settings,
        gate: &G,
        stop: &mut T,
    ) -> Result<SearchEnd, AllocError>
        ensures alone { IfOk result
            (IsAloneUntil problem.now.position (settings_in settings.now) (T.signal stop.old)
            (T.signal stop.new)) }
        ensures solution { IfOk result (IsSolution problem.now.position) }
        ensures heeds { IfOk result (HeedsStop (T.signal stop.old) (T.signal stop.new)) }
        // A stop is polled, and nothing else.
        ensures armed { (T.signal stop.new).armed ≡ (T.signal stop.old).armed }
        ensures arms { (T.signal stop.new).arms ≡ (T.signal stop.old).arms }
        ensures early { (T.signal stop.new).early ≡ (T.signal stop.old).early }
    {
        let mut port = ready(alloc, self.port.take(), problem, settings)?;
        let end = search_over(alloc, problem, settings, &mut port, gate, stop);
        self.port = Some(port);
        end
    }
}

// Searches with a stop that never signals, and a gate that holds nobody up.
fn search_quietly(
    alloc: Global,
    problem: &Problem,
    settings: &Settings,
    port: &mut LonePort,
) -> Result<SearchEnd, AllocError>
    requires made { port.old
        ≡ alone_at_first problem.now.position settings.now.expansions settings.now.room
        settings.now.rows settings.now.lends }
    requires suits { (number : ℕ)
        → Suits (worker_at_first problem.now.position number) (book_of port.old) }
    ensures alone { IfOk result (IsAlone problem.now.position (settings_in settings.now)) }
    ensures solution { IfOk result (IsSolution problem.now.position) }
{
    search_over(
        alloc,
        problem,
        settings,
        port,
        &OpenGate,
        &mut QuietStop::new(),
    )
}
