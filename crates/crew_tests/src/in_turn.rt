// Two workers of a search take turns, visit by visit, and are held against a world of two that does
// the same.
use crate::crews::quiet;
use crate::problems::{ROOKS, problem};
use crate::same::same;
use lone_port::Event;
use problem_gen::problem_of;
use search_crew::search;
use search_gate::Gate;
use search_limits::Settings;
use shogi_rules::Problem;
use std::alloc::{AllocError, Global};
use std::process::Abort;
use std::sync::Wait;
use std::sync::atomic::{AtomicU64, Ordering};
use std::test::Fail;
use std::thread::{Threads, yield_now};
use worker_core::Worker;
use world_play::World;

// The most visits of a search.
const VISITS: u64 = 1_000;

// More steps than a worker takes from one visit to the next.
const STEPS: u32 = 100_000;

// How long a worker waits for its turn: so many rounds of so many looks, behind each of which it
// lets others run.
const ROUNDS: u32 = 20_000;

const LOOKS: u32 = 10_000;

// How often a search is tried whose worker was away for longer than the other one waits.
const TRIES: u32 = 100;

// Lets one of two workers at a time run from visit to visit, once both have drawn their first:
// worker 1 begins.
#[derive(Drop)]
struct Turns {
    // How many visits each has drawn.
    one: AtomicU64,
    two: AtomicU64,
    // Who drew the first visit of all, and whose turn it is.
    first: AtomicU64,
    on: AtomicU64,
    // Who waited long enough for the other one to have ended; from then on nobody waits, and
    // nothing is counted.
    last: AtomicU64,
    // Whether a visit was drawn after that, so that the other one hadn't ended after all.
    is_void: AtomicU64,
}

fn other(worker: u32) -> u32 {
    if worker == 1 { 2 } else { 1 }
}

impl Turns {
    fn new() -> Turns {
        Turns {
            one: AtomicU64::new(0),
            two: AtomicU64::new(0),
            first: AtomicU64::new(0),
            on: AtomicU64::new(1),
            last: AtomicU64::new(0),
            is_void: AtomicU64::new(0),
        }
    }

    fn drawn_by(&self, worker: u32) -> &AtomicU64 {
        if worker == 1 { &self.one } else { &self.two }
    }

    fn is_turn_of(&self, worker: u32) -> bool {
        self.on.load(Ordering::SeqCst) == worker as u64
            && self.drawn_by(other(worker)).load(Ordering::SeqCst) > 0
    }

    // Waits for a worker's turn; whether it came.
    fn came(&self, worker: u32) -> bool {
        for _ in 0..ROUNDS {
            for _ in 0..LOOKS {
                if self.is_turn_of(worker) {
                    return true;
                }
            }
            yield_now();
        }
        false
    }

    // How many visits each had drawn when the first ended.
    fn drawn(&self) -> (u64, u64) {
        (
            self.one.load(Ordering::SeqCst),
            self.two.load(Ordering::SeqCst),
        )
    }
}

impl Gate for Turns {
    fn pass(&self, worker: u32, expansion: u64) {
        if self.last.load(Ordering::SeqCst) != 0 {
            self.is_void.store(1, Ordering::SeqCst);
            return;
        }
        if expansion == 1 {
            self.first.store(worker as u64, Ordering::SeqCst);
        }
        if self.drawn_by(worker).fetch_add(1, Ordering::SeqCst) > 0 {
            self.on.store(other(worker) as u64, Ordering::SeqCst);
        }
        if !self.came(worker) {
            self.last.store(worker as u64, Ordering::SeqCst);
        }
    }
}

// What two workers in turn had drawn when the first ended, and whether worker 2 drew the first
// visit of all; none where one of them was away for too long.
fn drawn_in_turn<R: Threads + Wait + AllocGlobal + Sync>(
    rt: &R,
    problem: &Problem,
    settings: &Settings,
) -> Result<Option<(u64, u64, bool)>, AllocError> {
    if settings.workers > 64 {
        return Ok(None);
    }
    let turns = Turns::new();
    search(rt, problem, settings, &turns, &mut quiet(rt.alloc())?)?;
    let (one, two) = turns.drawn();
    if turns.is_void.load(Ordering::SeqCst) != 0 || one == 0 || two == 0 {
        return Ok(None);
    }
    Ok(Some((one, two, turns.first.load(Ordering::SeqCst) == 2)))
}

fn visits_of(world: &World, number: u32) -> u64 {
    world.worker(number).map_or(0, Worker::visits)
}

// Has a worker of a world go on till it has drawn one more visit; whether it has ended instead.
fn ends(rt: &impl Abort, alloc: Global, world: &mut World, number: u32) -> bool {
    let before = visits_of(world, number);
    for _ in 0..STEPS {
        if world.worker(number).and_then(Worker::end).is_some() {
            return true;
        }
        let lost = world.play(alloc, &[Event::Step(number)]);
        same(rt, "lost", lost, 0);
        if visits_of(world, number) > before {
            return false;
        }
    }
    same(rt, ("goes on", number), true, false);
    true
}

// What two workers of a world in turn have drawn when the first has ended.
fn drawn_in_world(
    rt: &impl Abort,
    alloc: Global,
    problem: &Problem,
    settings: &Settings,
    second_first: bool,
) -> Result<(u64, u64), AllocError> {
    let mut world = World::make(alloc, problem, settings)?;
    let first = if second_first { 2 } else { 1 };
    ends(rt, alloc, &mut world, first);
    ends(rt, alloc, &mut world, other(first));
    for _ in 0..VISITS {
        if ends(rt, alloc, &mut world, 1) || ends(rt, alloc, &mut world, 2) {
            break;
        }
    }
    Ok((visits_of(&world, 1), visits_of(&world, 2)))
}

// Searches the problem of a row by two workers in turn, and has a world of two do the same.
fn take_turns<R: Threads + Wait + AllocGlobal + Abort + Sync>(
    rt: &R,
    alloc: Global,
    row: u64,
    problem: &Problem,
) -> Result<(), AllocError> {
    let settings = Settings::new(2, VISITS, 10_000, 1_024, 16).expect(rt, "settings");
    for _ in 0..TRIES {
        if let Some((one, two, second_first)) = drawn_in_turn(rt, problem, &settings)? {
            let wanted = drawn_in_world(rt, alloc, problem, &settings, second_first)?;
            same(rt, row, (one, two), wanted);
            return Ok(());
        }
    }
    same(rt, (row, "in turn"), false, true);
    Ok(())
}

#[test]
fn two_workers_in_turn_draw_what_a_world_of_two_does(rt: HostRuntime) -> Result<(), Fail> {
    take_turns(&rt, rt.alloc(), 20, &problem(&rt, ROOKS))?;
    for number in 0..20 {
        take_turns(&rt, rt.alloc(), number, &problem_of(number))?;
    }
    Ok(())
}
