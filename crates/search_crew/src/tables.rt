// Searches by as many workers as are asked for, over tables that are kept.
ghost use Rattle.std.specs.Prelude.{◌≡◌, ◌<◌, ◌≤◌, IfOk, length, map};
ghost use Rattle.search_gate.specs.Polls.{ArePolled};
ghost use Rattle.search_limits.specs.Settings.{settings_in};
ghost use Rattle.search_pool.specs.End.{IsSolution};
ghost use Rattle.search_crew.specs.End.{IsCrewEnd, IsSearchEnd};

use crate::crew::Kept;
use bit_boards::Side;
use search_gate::{Gate, Stop};
use search_limits::Settings;
use search_pool::{SearchEnd, Table};
use shared_table::{BlackJob, WhiteJob};
use shogi_rules::Problem;
use std::alloc::{AllocError, Global};
use std::sync::Wait;
use std::thread::Threads;

// The table of several workers, by its attacker.
#[derive(Drop)]
enum CrewTable {
    Black(Kept<BlackJob, WhiteJob>),
    White(Kept<WhiteJob, BlackJob>),
}

// A table of the settings' rows and shards that knows nothing, for Black's searches: the one that
// is at hand, emptied, or one that is made.
fn for_black(
    alloc: Global,
    at_hand: Option<CrewTable>,
    settings: &Settings,
) -> Result<Kept<BlackJob, WhiteJob>, AllocError> {
    match at_hand {
        Some(CrewTable::Black(kept)) if kept.suits(settings) => Ok(kept.emptied()),
        Some(CrewTable::White(kept)) if kept.suits(settings) => Ok(kept.turned()),
        _ => Kept::make(alloc, settings),
    }
}

// The same for White's.
fn for_white(
    alloc: Global,
    at_hand: Option<CrewTable>,
    settings: &Settings,
) -> Result<Kept<WhiteJob, BlackJob>, AllocError> {
    match at_hand {
        Some(CrewTable::White(kept)) if kept.suits(settings) => Ok(kept.emptied()),
        Some(CrewTable::Black(kept)) if kept.suits(settings) => Ok(kept.turned()),
        _ => Kept::make(alloc, settings),
    }
}

/// The tables that searches use one after the other, so that their memory is taken once. A table is
/// emptied for each search (of several workers' no clause says it); it is made anew where settings
/// want other rows or shards, and let go where they turn from one worker to several or back.
#[derive(Drop)]
pub struct Tables {
    alone: Table,
    crew: Option<CrewTable>,
}

// A search by one worker, which polls the first stop.
fn search_alone<G: Gate, T: Stop>(
    alloc: Global,
    table: &mut Table,
    problem: &Problem,
    settings: &Settings,
    gate: &G,
    stops: &mut [T],
) -> Result<SearchEnd, AllocError>
    requires alone { settings.now.workers ≡ 1 }
    requires stops { 0 < length stops.old }
    ensures end { IfOk result (IsSearchEnd problem.now.position (settings_in settings.now)
        (map T.signal stops.old) (map T.signal stops.new)) }
    ensures solution { IfOk result (IsSolution problem.now.position) }
    ensures polled { ArePolled 1 (map T.signal stops.old) (map T.signal stops.new) }
{
    table.search_until(alloc, problem, settings, gate, &mut stops[0])
}

impl Tables {
    /// No table yet: the first search makes it. Takes no memory.
    pub fn new() -> Tables {
        Tables {
            alone: Table::new(),
            crew: None,
        }
    }

    // A search by several workers.
    fn search_crew<R: Threads + Wait + AllocGlobal + Sync, G: Gate, T: Stop + Drop>(
        &mut self,
        rt: &R,
        problem: &Problem,
        settings: &Settings,
        gate: &G,
        stops: &mut Vec<T>,
    ) -> Result<SearchEnd, AllocError>
        requires stops { settings.now.workers ≤ length stops.old.items }
        ensures end { IfOk result
            (IsCrewEnd problem.now.position (settings_in settings.now)
            (map T.signal stops.old.items) (map T.signal stops.new.items)) }
        ensures polled { ArePolled settings.now.workers
            (map T.signal stops.old.items) (map T.signal stops.new.items) }
    {
        let at_hand = self.crew.take();
        match problem.attacker() {
            Side::Black => {
                let kept = for_black(rt.alloc(), at_hand, settings)?;
                let (end, kept) = kept.search(rt, problem, settings, gate, stops)?;
                self.crew = Some(CrewTable::Black(kept));
                Ok(end)
            }
            Side::White => {
                let kept = for_white(rt.alloc(), at_hand, settings)?;
                let (end, kept) = kept.search(rt, problem, settings, gate, stops)?;
                self.crew = Some(CrewTable::White(kept));
                Ok(end)
            }
        }
    }

    /// Searches a problem with the settings' workers: each works in a thread of its own where one
    /// can be made, over one table behind locks and one desk, till it has ended; then their seats
    /// are taken back, and the desk is closed. Where a note was posted, the first one answers the
    /// problem; else the search gave up, for the first of expansions, room, height and stop that
    /// a worker met, and all come with it, in order. With one it takes no lock and waits for
    /// nobody, as [`search_by_one`](crate::search_by_one). The table is the one that is at hand,
    /// emptied in the time of the rows that have entries, or made, with all its memory.
    ///
    /// The gate is passed for each visit, by the worker that drew it, with no lock held (no clause
    /// says it, nor that a worker posted the answer). Worker w polls stop w and no other; the stops
    /// come back to their places. Errors: want of memory alone. Nothing is promised of which worker
    /// is first, or that more are faster. (df-pn: Nagai 2002; many workers: Kaneko 2010.)
    pub fn search<R: Threads + Wait + AllocGlobal + Sync, G: Gate, T: Stop + Drop>(
        &mut self,
        rt: &R,
        problem: &Problem,
        settings: &Settings,
        gate: &G,
        stops: &mut Vec<T>,
    ) -> Result<SearchEnd, AllocError>
        // There is a stop for each worker.
        requires stops { settings.now.workers ≤ length stops.old.items }
        // It ended as the search of one worker does, or as that of a crew.
        ensures end { IfOk result (IsSearchEnd problem.now.position (settings_in settings.now)
            (map T.signal stops.old.items) (map T.signal stops.new.items)) }
        // A note that solves it is valid, holds on every path, is about the problem's position and
        // for its attacker.
        ensures solution { IfOk result (IsSolution problem.now.position) }
        // Stops are polled, and nothing else; those beyond the workers' are as they were.
        ensures polled { ArePolled settings.now.workers
            (map T.signal stops.old.items) (map T.signal stops.new.items) }
    {
        if settings.workers == 1 {
            self.crew = None;
            let alloc = rt.alloc();
            return search_alone(alloc, &mut self.alone, problem, settings, gate, stops);
        }
        self.alone = Table::new();
        self.search_crew(rt, problem, settings, gate, stops)
    }
}

/// One search of its own, over tables that are made for it: see [`Tables::search`].
pub fn search<R: Threads + Wait + AllocGlobal + Sync, G: Gate, T: Stop + Drop>(
    rt: &R,
    problem: &Problem,
    settings: &Settings,
    gate: &G,
    stops: &mut Vec<T>,
) -> Result<SearchEnd, AllocError>
    // There is a stop for each worker.
    requires stops { settings.now.workers ≤ length stops.old.items }
    ensures end { IfOk result (IsSearchEnd problem.now.position (settings_in settings.now)
        (map T.signal stops.old.items) (map T.signal stops.new.items)) }
    ensures solution { IfOk result (IsSolution problem.now.position) }
    ensures polled { ArePolled settings.now.workers
        (map T.signal stops.old.items) (map T.signal stops.new.items) }
{
    Tables::new().search(rt, problem, settings, gate, stops)
}
