// What is found of a position behind a check and an evasion.
ghost use Rattle.std.specs.Prelude.{◌≡◌, ◌<◌, ◌≤◌, ◌++◌, IfOk, length, map};
ghost use Rattle.search_gate.specs.Polls.{ArePolled};
ghost use Rattle.search_limits.specs.Settings.{settings_in};
ghost use Rattle.search_pool.specs.End.{IsSolution};
ghost use Rattle.search_pool.specs.declared.end.SearchEnd.TheVariants.{Solved};
ghost use Rattle.search_crew.specs.End.{IsSearchEnd};
ghost use Rattle.visit_log.specs.Frame.{task_for};
ghost use Rattle.visit_log.specs.Sound.{IsAnswer};
ghost use Rattle.cook_search.specs.Inside.{IsDecided, IsFinding};
ghost use Rattle.cook_search.specs.Search.{crews_in};

use crate::Ground;
use cert_extract::{ExtractEnd, extract};
use cert_text::{Certificate, EscapeCertificate, MOST_ENTRIES, MateCertificate};
use notes::Note;
use search_crew::Tables;
use search_gate::{Gate, Stop};
use search_limits::Cause;
use search_pool::SearchEnd;
use shogi_rules::Problem;
use std::alloc::{AllocError, Global};
use std::sync::Wait;
use std::thread::Threads;
use worker_core::Crew;

/// What searches go over and leave: their tables, their stops, and the workers of those that gave
/// up.
#[derive(Drop)]
pub(crate) struct Means<T: Drop> {
    pub(crate) tables: Tables,
    pub(crate) stops: Vec<T>,
    pub(crate) crews: Vec<Crew>,
}

// What is found of a position.
#[derive(Drop)]
pub(crate) enum Finding {
    // It is a mate.
    Mate(MateCertificate),
    // It is none.
    Escape(EscapeCertificate),
    // It isn't decided, and why.
    Open(Cause),
}

// What the note that answers a position shows of it, by the certificate that is extracted from it,
// unless that would have more entries than are read. Errors: want of memory alone.
fn shown(alloc: Global, position: &Problem, note: &Note) -> Result<Finding, AllocError>
    requires { IsAnswer (task_for position.now.position 1) note.now }
    ensures { IfOk result (IsFinding position.now.position (Solved note.now)) }
{
    match extract(alloc, position, note, MOST_ENTRIES as usize) {
        Ok(Certificate::Mate(certificate)) => Ok(Finding::Mate(certificate)),
        Ok(Certificate::Escape(certificate)) => Ok(Finding::Escape(certificate)),
        Err(ExtractEnd::TooMany) => Ok(Finding::Open(Cause::Entries(MOST_ENTRIES))),
        Err(ExtractEnd::NoMemory) => Err(AllocError),
    }
}

// What a search that ended so shows of its position; the workers of one that gave up are put behind
// the others. Errors: want of memory alone.
fn found_by(
    alloc: Global,
    position: &Problem,
    end: SearchEnd,
    crews: &mut Vec<Crew>,
) -> Result<Finding, AllocError>
    requires { IsSolution position.now.position end }
    ensures finding { IfOk result (IsFinding position.now.position end) }
    ensures brought { IfOk result
        (λ found. crews.new.items ≡ crews.old.items ++ crews_in end) }
{
    match end {
        SearchEnd::Solved(note) => shown(alloc, position, &note),
        SearchEnd::Unknown(cause, crew) => {
            crews.push(crew)?;
            Ok(Finding::Open(cause))
        }
    }
}

/// Searches a position, and tells what is found of it. Errors: want of memory alone.
pub(crate) fn decide<R: Threads + Wait + AllocGlobal + Sync, G: Gate, T: Stop + Drop>(
    ground: &Ground<'_, R, G>,
    position: &Problem,
    means: &mut Means<T>,
) -> Result<Finding, AllocError>
    requires stops { ground.now.settings.now.workers ≤ length means.old.stops.items }
    ensures decided { IfOk result
        (IsDecided position.now.position (settings_in ground.now.settings.now)
        (map T.signal means.old.stops.items) (map T.signal means.new.stops.items)
        means.old.crews.items means.new.crews.items) }
    ensures polled { ArePolled ground.now.settings.now.workers
        (map T.signal means.old.stops.items) (map T.signal means.new.stops.items) }
{
    let (settings, gate) = (ground.settings, ground.gate);
    let stops = &mut means.stops;
    let end = means
        .tables
        .search(ground.rt, position, settings, gate, stops)?;
    found_by(ground.rt.alloc(), position, end, &mut means.crews)
}
