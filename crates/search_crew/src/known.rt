// Searches by as many workers as are asked for that begin from notes that are known.
ghost use Rattle.std.specs.Prelude.{◌≡◌, ◌<◌, ◌≤◌, ℕ, All, IfOk, length, map};
ghost use Rattle.search_gate.specs.Polls.{ArePolled};
ghost use Rattle.search_limits.specs.Settings.{settings_in};
ghost use Rattle.search_pool.specs.End.{IsSolution};
ghost use Rattle.unit_desk.specs.Known.{IsKnown};
ghost use Rattle.search_crew.specs.End.{IsCrewEnd, IsSearchEndWith};

use crate::crew::Kept;
use bit_boards::Side;
use notes::Note;
use search_gate::{Gate, Stop};
use search_limits::Settings;
use search_pool::{SearchEnd, search_filled_until};
use shared_table::{BlackJob, Job, WhiteJob};
use shogi_rules::Problem;
use std::alloc::{AllocError, Global};
use std::sync::Wait;
use std::thread::Threads;
use unit_desk::known_answer;

/// Searches a problem with one worker, which polls the first stop, from notes that are known:
/// [`search_with`] without threads, which takes no lock and waits for nobody. Takes the table's
/// memory at once: about 1 KB a row. Errors: want of memory alone.
pub fn search_with_by_one<G: Gate, T: Stop>(
    alloc: Global,
    problem: &Problem,
    settings: &Settings,
    notes: &[Note],
    gate: &G,
    stops: &mut [T],
) -> Result<SearchEnd, AllocError>
    requires alone { settings.now.workers ≡ 1 }
    requires stops { 0 < length stops.old }
    requires known { All (IsKnown problem.now.position.side) notes.now }
    ensures end { IfOk result (IsSearchEndWith notes.now problem.now.position
        (settings_in settings.now) (map T.signal stops.old) (map T.signal stops.new)) }
    ensures solution { IfOk result (IsSolution problem.now.position) }
    ensures polled { ArePolled 1 (map T.signal stops.old) (map T.signal stops.new) }
{
    search_filled_until(alloc, problem, settings, notes, gate, &mut stops[0])
}

// A search by several workers, of the job's attacker, over a table of its own that has taken in
// the notes.
fn search_crew_with<
    J: Job + Send + Sync,
    K: Job + Send + Sync,
    R: Threads + Wait + AllocGlobal + Sync,
    G: Gate,
    T: Stop + Drop,
>(
    rt: &R,
    problem: &Problem,
    settings: &Settings,
    notes: &[Note],
    gate: &G,
    stops: &mut Vec<T>,
) -> Result<SearchEnd, AllocError>
    requires attacks { problem.now.position.side ≡ J.ATTACKER }
    requires known { All (IsKnown problem.now.position.side) notes.now }
    requires stops { settings.now.workers ≤ length stops.old.items }
    ensures end { IfOk result (IsCrewEnd problem.now.position (settings_in settings.now)
        (map T.signal stops.old.items) (map T.signal stops.new.items)) }
    ensures polled { ArePolled settings.now.workers (map T.signal stops.old.items)
        (map T.signal stops.new.items) }
{
    let kept: Kept<J, K> = Kept::make(rt.alloc(), settings)?;
    kept.take_all(rt, notes)?;
    let (end, _) = kept.search(rt, problem, settings, gate, stops)?;
    Ok(end)
}

// The same of the problem's attacker.
fn search_crew_for<R: Threads + Wait + AllocGlobal + Sync, G: Gate, T: Stop + Drop>(
    rt: &R,
    problem: &Problem,
    settings: &Settings,
    notes: &[Note],
    gate: &G,
    stops: &mut Vec<T>,
) -> Result<SearchEnd, AllocError>
    requires known { All (IsKnown problem.now.position.side) notes.now }
    requires stops { settings.now.workers ≤ length stops.old.items }
    ensures end { IfOk result (IsCrewEnd problem.now.position (settings_in settings.now)
        (map T.signal stops.old.items) (map T.signal stops.new.items)) }
    ensures polled { ArePolled settings.now.workers (map T.signal stops.old.items)
        (map T.signal stops.new.items) }
{
    match problem.attacker() {
        Side::Black => {
            search_crew_with::<BlackJob, WhiteJob, _, _, _>(
                rt, problem, settings, notes, gate, stops,
            )
        }
        Side::White => {
            search_crew_with::<WhiteJob, BlackJob, _, _, _>(
                rt, problem, settings, notes, gate, stops,
            )
        }
    }
}

/// Searches a problem with the settings' workers, as [`search`](crate::search) does, from notes
/// that are known: they hold on every path, and are for the problem's attacker. What the first says
/// that is about the problem's position, or that may be carried to it, is the answer, and nobody
/// searches. Else the table takes in each note, in order, before a worker begins (of several no
/// clause says it); with one it is [`search_with_by_one`]. No visit is drawn for that, and no room
/// claimed. Errors: want of memory alone.
pub fn search_with<R: Threads + Wait + AllocGlobal + Sync, G: Gate, T: Stop + Drop>(
    rt: &R,
    problem: &Problem,
    settings: &Settings,
    notes: &[Note],
    gate: &G,
    stops: &mut Vec<T>,
) -> Result<SearchEnd, AllocError>
    // There is a stop for each worker.
    requires stops { settings.now.workers ≤ length stops.old.items }
    requires known { All (IsKnown problem.now.position.side) notes.now }
    // It ended as the search of one worker does in which the notes are known, or as that of a crew;
    // and a problem that a note is about, or that one may be carried to, is solved, however few the
    // visits are.
    ensures end { IfOk result (IsSearchEndWith notes.now problem.now.position
        (settings_in settings.now) (map T.signal stops.old.items) (map T.signal stops.new.items)) }
    // A note that solves it is valid, holds on every path, is about the problem's position and for
    // its attacker.
    ensures solution { IfOk result (IsSolution problem.now.position) }
    // Stops are polled, and nothing else; those beyond the workers' are as they were.
    ensures polled { ArePolled settings.now.workers (map T.signal stops.old.items)
        (map T.signal stops.new.items) }
{
    let alloc = rt.alloc();
    if settings.workers == 1 {
        return search_with_by_one(alloc, problem, settings, notes, gate, stops);
    }
    if let Some(note) = known_answer(alloc, problem, notes)? {
        note.laws();
        return Ok(SearchEnd::Solved(note));
    }
    search_crew_for(rt, problem, settings, notes, gate, stops)
}
