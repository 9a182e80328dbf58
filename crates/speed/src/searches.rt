// Searches of the problems of the standard input, by one worker and by several in turn.
use crate::pace::{Done, print_done};
use crate::problems::problems;
use crate::words::Asked;
use lone_port::{Event, LonePort};
use notes::{Conclusion, Note};
use search_gate::{DeadlineStop, Gate, Stop};
use search_limits::Settings;
use search_pool::{SearchEnd, search_alone_until};
use shogi_rules::Problem;
use std::io;
use std::sync::atomic::{AtomicU64, Ordering};
use std::time::Instant;
use tsume_io::StdClock;
use world_play::World;

// The most visits that a problem may take in a world.
const MOST_VISITS: u64 = 300_000;

// How often each worker makes a request before it is asked whether all have ended.
const TURNS: u32 = 64;

// A gate that counts the visits that pass it.
#[derive(Drop)]
struct Counter {
    visits: AtomicU64,
}

impl Gate for Counter {
    fn pass(&self, _: u32, _: u64) {
        self.visits.fetch_add(1, Ordering::SeqCst);
    }
}

// Prints what was found, how many visits it took, and the height of what shows it.
fn tell(
    rt: &HostRuntime,
    asked: &Asked,
    begun: Instant,
    visits: u64,
    found: Option<&Note>,
) -> io::Result<()> {
    let Some(note) = found else {
        let done = Done {
            calls: visits,
            sum: 0,
        };
        return print_done(rt, asked, "unknown", begun, done);
    };
    let verdict = match note.conclusion() {
        Conclusion::Mate => "mate",
        Conclusion::Escape => "nomate",
    };
    let sum = u64::from(note.height());
    print_done(rt, asked, verdict, begun, Done { calls: visits, sum })
}

/// Those of a search by so many workers with so many visits, and all room. Errors: a number is out
/// of range.
pub fn settings(workers: u32, visits: u64) -> io::Result<Settings> {
    match Settings::new(workers, visits, 1_400_000, 65_536, 1) {
        Ok(settings) => Ok(settings),
        Err(_) => Err(io::Error::from(io::ErrorKind::InvalidInput)),
    }
}

fn search(
    rt: &HostRuntime,
    asked: &Asked,
    settings: &Settings,
    problem: &Problem,
) -> io::Result<()> {
    let gate = Counter {
        visits: AtomicU64::new(0),
    };
    let mut stop = DeadlineStop::new(StdClock::new(rt));
    stop.arm(Some(asked.rounds));
    let begun = Instant::now(rt)?;
    let end = search_alone_until(rt.alloc(), problem, settings, &gate, &mut stop)?;
    let found = match &end {
        SearchEnd::Solved(note) => Some(note),
        SearchEnd::Unknown(..) => None,
    };
    tell(rt, asked, begun, gate.visits.load(Ordering::SeqCst), found)
}

/// Searches each problem of the standard input with one worker, the default table and at most so
/// many milliseconds, and prints a line for each: the verdict and the visits. Before them a line
/// tells of the making of a table, which is a part of each search's time.
pub fn searches(rt: &HostRuntime, asked: &Asked) -> io::Result<()> {
    let settings = settings(1, 1_000_000_000)?;
    let problems = problems(rt)?;
    if let Some(first) = problems.first() {
        let begun = Instant::now(rt)?;
        let _table = LonePort::make(rt.alloc(), first, &settings)?;
        print_done(rt, asked, "table", begun, Done { calls: 1, sum: 0 })?;
    }
    for problem in problems.iter() {
        search(rt, asked, &settings, problem)?;
    }
    Ok(())
}

// Each worker's steps, one after the other, so many times.
fn in_turn(rt: &HostRuntime, workers: u32) -> io::Result<Vec<Event>> {
    let mut events = Vec::new(rt.alloc());
    for _ in 0..TURNS {
        for worker in 0..workers {
            events.push(Event::Step(worker.wrapping_add(1)))?;
        }
    }
    Ok(events)
}

fn play(
    rt: &HostRuntime,
    asked: &Asked,
    settings: &Settings,
    problem: &Problem,
    events: &[Event],
) -> io::Result<()> {
    let begun = Instant::now(rt)?;
    let mut world = World::make(rt.alloc(), problem, settings)?;
    for _ in 0..u64::MAX {
        if world.ended() {
            break;
        }
        let _refused = world.play(rt.alloc(), events);
    }
    tell(rt, asked, begun, world.drawn(), world.posted())
}

/// Searches each problem of the standard input by so many workers that make their requests in turn,
/// and prints a line for each: the verdict, and the visits that all workers drew until they had
/// ended.
pub fn worlds(rt: &HostRuntime, asked: &Asked) -> io::Result<()> {
    let workers = u32::try_from(asked.rounds).unwrap_or(0);
    let settings = settings(workers, MOST_VISITS)?;
    let events = in_turn(rt, workers)?;
    for problem in problems(rt)?.iter() {
        play(rt, asked, &settings, problem, &events)?;
    }
    Ok(())
}
