// A search with one worker that begins from notes that are known.
ghost use Rattle.std.specs.Prelude.{◌≡◌, ℕ, IfOk, All};
ghost use Rattle.search_limits.specs.Settings.{settings_in};
ghost use Rattle.unit_desk.specs.Known.{IsKnown, ReachesAt};
ghost use Rattle.search_pool.specs.End.{IsUntilWith, IsSolution, IsSolved, HeedsStop};

use crate::SearchEnd;
use crate::alone::search_from;
use lone_port::LonePort;
use notes::Note;
use search_gate::{Gate, Stop};
use search_limits::Settings;
use shogi_rules::Problem;
use std::alloc::{AllocError, Global};

/// Searches a problem with one worker, as [`search_alone_until`](crate::search_alone_until) does,
/// from notes that are known: before the worker begins, the table has taken in each note, in order,
/// and what the first says that is about the problem, or that may be carried to it, is posted. The
/// notes hold on every path, and are for the problem's attacker. No visit is drawn for that, and no
/// room claimed. Errors: want of memory alone.
pub fn search_filled_until<G: Gate, T: Stop>(
    alloc: Global,
    problem: &Problem,
    settings: &Settings,
    notes: &[Note],
    gate: &G,
    stop: &mut T,
) -> Result<SearchEnd, AllocError>
    requires known { All (IsKnown problem.now.position.side) notes.now }
    // It answers what the world of one worker does in which the notes are known, and in which a
    // stop is signalled only where the stop signalled, which is polled as often as the worker
    // polls.
    ensures alone { IfOk result
        (IsUntilWith notes.now problem.now.position (settings_in settings.now)
        (T.signal stop.old) (T.signal stop.new)) }
    // A note that solves it is valid, holds on every path, is about the problem's position and for
    // its attacker.
    ensures solution { IfOk result (IsSolution problem.now.position) }
    // A problem that a note is about, or that one may be carried to, is solved, however few the
    // visits are.
    ensures solved { IfOk result (λ end. (place : ℕ)
        → ReachesAt problem.now.position notes.now place → IsSolved end) }
    // Any other search ends as stopped exactly where the stop signalled, which it does once; then
    // it is polled no more.
    ensures heeds { IfOk result (λ end.
        ((place : ℕ) → ¬ ReachesAt problem.now.position notes.now place)
        → HeedsStop (T.signal stop.old) (T.signal stop.new) end) }
    // A stop is polled, and nothing else.
    ensures armed { (T.signal stop.new).armed ≡ (T.signal stop.old).armed }
    ensures arms { (T.signal stop.new).arms ≡ (T.signal stop.old).arms }
    ensures early { (T.signal stop.new).early ≡ (T.signal stop.old).early }
{
    let mut port = LonePort::make_filled(alloc, problem, settings, notes)?;
    search_from(alloc, problem, settings, &mut port, gate, stop)
}
