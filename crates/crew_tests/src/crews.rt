// Several workers search one problem, each in a thread of its own.
ghost use Rattle.std.specs.Prelude.{◌≡◌, IfOk, length, vec_len};
ghost use Rattle.search_limits.specs.declared.settings.TheConstants.{MOST_WORKERS};

use crate::problems::{ALONE, CHASED, GOLD, ROOKS, ROUND, WHITE, problem, settings_of};
use crate::same::same;
use notes::Conclusion;
use search_crew::search;
use search_gate::{Gate, MemStop, OpenGate, QuietStop};
use search_limits::{Cause, MOST_WORKERS};
use search_pool::SearchEnd;
use std::alloc::{AllocError, Global};
use std::sync::atomic::{AtomicU64, Ordering};
use std::test::Fail;
use std::thread::yield_now;

/// What a search ended with: what its note concludes, or the cause.
pub(crate) fn told(end: &SearchEnd) -> (Option<Conclusion>, Option<Cause>) {
    match end {
        SearchEnd::Solved(note) => (Some(note.conclusion()), None),
        SearchEnd::Unknown(cause, _) => (None, Some(*cause)),
    }
}

// How many workers a search brought with its cause, and how many visits and notes they have
// together.
fn crew_of(end: &SearchEnd) -> (usize, u64, u64) {
    match end {
        SearchEnd::Solved(_) => (0, 0, 0),
        SearchEnd::Unknown(_, crew) => {
            let workers = crew.workers();
            let mut visits: u64 = 0;
            let mut claims: u64 = 0;
            for worker in workers {
                visits = visits.wrapping_add(worker.visits());
                claims = claims.wrapping_add(worker.claims());
            }
            (workers.len(), visits, claims)
        }
    }
}

/// A stop that never signals for each worker that there may be.
pub(crate) fn quiet(alloc: Global) -> Result<Vec<QuietStop>, AllocError>
    ensures { IfOk result (λ stops. length stops.items ≡ MOST_WORKERS) }
{
    vec![in alloc; QuietStop::new(); 64]
}

#[test]
fn a_crew_ends_as_it_should(rt: HostRuntime) -> Result<(), Fail> {
    let mate = (Some(Conclusion::Mate), None);
    let escape = (Some(Conclusion::Escape), None);
    // The problem, its workers, visits and notes, how its search ends, and what its crew is, has
    // drawn and has claimed.
    let rows = [
        (GOLD, 4, 1_000, 100, mate, (0, 0, 0)),
        (WHITE, 3, 1_000, 100, mate, (0, 0, 0)),
        (ALONE, 2, 1, 1, escape, (0, 0, 0)),
        (ROOKS, 1, 1_000, 100, mate, (0, 0, 0)),
        (ROOKS, 2, 10_000, 10_000, mate, (0, 0, 0)),
    ];
    for (text, workers, expansions, room, wanted, crew) in rows {
        let end = search(
            &rt,
            &problem(&rt, text),
            &settings_of(&rt, workers, expansions, room),
            &OpenGate,
            &mut quiet(rt.alloc())?,
        )?;
        same(&rt, (text, workers), told(&end), wanted);
        same(&rt, (text, workers), crew_of(&end), crew);
    }
    Ok(())
}

#[test]
fn a_crew_that_gives_up_tells_why(rt: HostRuntime) -> Result<(), Fail> {
    for workers in [2, 4, 64] {
        let end = search(
            &rt,
            &problem(&rt, ROOKS),
            &settings_of(&rt, workers, 1, 100),
            &OpenGate,
            &mut quiet(rt.alloc())?,
        )?;
        let (count, visits, _) = crew_of(&end);
        same(&rt, workers, told(&end).1, Some(Cause::Expansions(1)));
        same(&rt, workers, (count, visits), (workers as usize, 1));
        let end = search(
            &rt,
            &problem(&rt, ROOKS),
            &settings_of(&rt, workers, 1_000_000, 1),
            &OpenGate,
            &mut quiet(rt.alloc())?,
        )?;
        let (count, _, claims) = crew_of(&end);
        same(&rt, workers, told(&end).1, Some(Cause::Room(1)));
        same(&rt, workers, (count, claims), (workers as usize, 1));
    }
    Ok(())
}

#[test]
fn a_crew_over_a_tiny_table_is_never_wrong(rt: HostRuntime) -> Result<(), Fail> {
    for text in [ROOKS, CHASED, ROUND] {
        for workers in [2, 8, 64] {
            let end = search(
                &rt,
                &problem(&rt, text),
                &settings_of(&rt, workers, 20_000, 20_000),
                &OpenGate,
                &mut quiet(rt.alloc())?,
            )?;
            let is_wrong = match told(&end).0 {
                Some(Conclusion::Mate) => text != ROOKS,
                Some(Conclusion::Escape) => text == ROOKS,
                None => false,
            };
            same(&rt, (text, workers), is_wrong, false);
        }
    }
    Ok(())
}

// One for each worker that there may be, which signals at this poll.
fn stops_at(alloc: Global, poll: u64) -> Result<Vec<MemStop>, AllocError>
    ensures { IfOk result (λ stops. vec_len stops ≡ MOST_WORKERS) }
{
    let mut stops = Vec::new(alloc);
    for _worker in 0..MOST_WORKERS {
        stops.push(MemStop::new(vec![in alloc; poll]?))?;
    }
    Ok(stops)
}

#[test]
fn each_worker_heeds_its_own_stop(rt: HostRuntime) -> Result<(), Fail> {
    let alloc = rt.alloc();
    let mut stops = stops_at(alloc, 1)?;
    let end = search(
        &rt,
        &problem(&rt, ROOKS),
        &settings_of(&rt, 3, 10_000, 10_000),
        &OpenGate,
        &mut stops,
    )?;
    same(&rt, "each", told(&end).1, Some(Cause::Stopped(1)));
    same(&rt, "each", crew_of(&end), (3, 0, 0));
    for (place, polls) in [(0, 1), (1, 1), (2, 1), (3, 0), (63, 0)] {
        same(
            &rt,
            place,
            stops.get(place).map(MemStop::polls),
            Some(polls),
        );
    }
    Ok(())
}

// How long a worker waits in a gate for another one: so many rounds of so many looks, behind each
// of which it lets others run.
const ROUNDS: u32 = 100_000;

const LOOKS: u32 = 10_000;

// Holds each of two workers at its first visit till the other one has drawn one too, or it has
// waited long enough.
#[derive(Drop)]
struct Meeting {
    first: AtomicU64,
    second: AtomicU64,
    alone: AtomicU64,
}

impl Meeting {
    fn own(&self, worker: u32) -> &AtomicU64 {
        if worker == 1 {
            &self.first
        } else {
            &self.second
        }
    }
}

impl Gate for Meeting {
    fn pass(&self, worker: u32, _expansion: u64) {
        if self.own(worker).fetch_add(1, Ordering::SeqCst) > 0 {
            return;
        }
        for _ in 0..ROUNDS {
            for _ in 0..LOOKS {
                if self.own(3 - worker.min(2)).load(Ordering::SeqCst) > 0 {
                    return;
                }
            }
            yield_now();
        }
        self.alone.store(1, Ordering::SeqCst);
    }
}

#[test]
fn two_workers_meet_at_their_first_visits(rt: HostRuntime) -> Result<(), Fail> {
    let meeting = Meeting {
        first: AtomicU64::new(0),
        second: AtomicU64::new(0),
        alone: AtomicU64::new(0),
    };
    let end = search(
        &rt,
        &problem(&rt, ROOKS),
        &settings_of(&rt, 2, 10_000, 10_000),
        &meeting,
        &mut quiet(rt.alloc())?,
    )?;
    same(&rt, "end", told(&end), (Some(Conclusion::Mate), None));
    same(&rt, "alone", meeting.alone.load(Ordering::SeqCst), 0);
    same(&rt, "one", meeting.first.load(Ordering::SeqCst) > 0, true);
    same(&rt, "two", meeting.second.load(Ordering::SeqCst) > 0, true);
    Ok(())
}
