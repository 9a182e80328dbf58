// Small worlds, to their ends.
use crate::problems::{ALONE, ROOKS, problem, settings};
use crate::same::same;
use board_core::key;
use lone_port::Event;
use notes::{Conclusion, Note};
use std::alloc::Global;
use std::process::Abort;
use std::test::Fail;
use visit_log::WorkEnd;
use worker_core::Worker;
use world_play::World;

fn end_of(world: &World, number: u32) -> Option<WorkEnd> {
    world.worker(number).and_then(Worker::end)
}

fn posted(world: &World) -> Option<Conclusion> {
    world.posted().map(Note::conclusion)
}

// Has a schedule happen, in which no look is lost for want of memory.
fn play(rt: &impl Abort, alloc: Global, world: &mut World, events: &[Event]) {
    let lost = world.play(alloc, events);
    same(rt, "lost", lost, 0);
}

#[test]
fn the_second_worker_is_told_what_the_first_posted(rt: HostRuntime) -> Result<(), Fail> {
    let alloc = rt.alloc();
    let alone = problem(&rt, ALONE);
    let mut world = World::make(alloc, &alone, &settings(&rt, 2, 1, 10_000))?;
    play(
        &rt,
        alloc,
        &mut world,
        &[Event::Step(0), Event::Starve(3), Event::Raise(3)],
    );
    for (number, visits) in [(1, 1), (2, 0)] {
        same(&rt, number, world.ended(), false);
        same(&rt, number, end_of(&world, number), None);
        play(&rt, alloc, &mut world, &[Event::Step(number); 20]);
        same(&rt, number, end_of(&world, number), Some(WorkEnd::Posted));
        let found = world.worker(number).map(Worker::visits);
        same(&rt, number, found, Some(visits));
    }
    same(&rt, "ended", world.ended(), true);
    for number in [0, 3] {
        same(&rt, number, world.worker(number).is_some(), false);
    }
    same(&rt, "counts", (world.drawn(), world.claimed()), (1, 1));
    same(&rt, "posted", posted(&world), Some(Conclusion::Escape));
    Ok(())
}

// A step of each of 64 workers, the first one first.
fn round_of_64() -> [Event; 64] {
    let mut round = [Event::Step(1); 64];
    for number in 0..64_u32 {
        round[number as usize] = Event::Step(number + 1);
    }
    round
}

// Has the workers go on in rounds until all have ended, or for a good while.
fn play_on(rt: &impl Abort, alloc: Global, world: &mut World, round: &[Event]) {
    for _ in 0..2000 {
        if world.ended() {
            break;
        }
        play(rt, alloc, world, round);
    }
}

#[test]
fn of_64_workers_one_is_starved_and_one_is_stopped(rt: HostRuntime) -> Result<(), Fail> {
    let alloc = rt.alloc();
    let rooks = problem(&rt, ROOKS);
    let round = round_of_64();
    let root = key(&rooks.position);
    for turns in [0, 3, 30] {
        let mut world = World::make(alloc, &rooks, &settings(&rt, 64, 10_000, 10_000))?;
        play(&rt, alloc, &mut world, &[Event::Raise(2)]);
        for _ in 0..turns {
            play(&rt, alloc, &mut world, &round);
        }
        same(&rt, turns, world.below(&root) > 0, turns > 0);
        play(&rt, alloc, &mut world, &[Event::Starve(1)]);
        play_on(&rt, alloc, &mut world, &round);
        same(&rt, turns, world.ended(), true);
        same(&rt, turns, end_of(&world, 1), Some(WorkEnd::NoMemory));
        same(&rt, turns, end_of(&world, 2), Some(WorkEnd::Stopped));
        same(&rt, turns, posted(&world), Some(Conclusion::Mate));
        same(&rt, turns, world.below(&root), 0);
    }
    Ok(())
}

// Each has ended before its two hundredth turn.
#[test]
fn a_mate_is_posted_whenever_one_of_64_workers_is_starved(rt: HostRuntime) -> Result<(), Fail> {
    let alloc = rt.alloc();
    let rooks = problem(&rt, ROOKS);
    let round = round_of_64();
    let root = key(&rooks.position);
    for turns in 1..=200_u32 {
        let mut world = World::make(alloc, &rooks, &settings(&rt, 64, 10_000, 10_000))?;
        for _ in 0..turns {
            play(&rt, alloc, &mut world, &round);
        }
        let before = end_of(&world, 1);
        same(&rt, turns, before.is_none() || turns > 100, true);
        play(&rt, alloc, &mut world, &[Event::Starve(1)]);
        play_on(&rt, alloc, &mut world, &round);
        same(&rt, turns, world.ended(), true);
        let end = before.unwrap_or(WorkEnd::NoMemory);
        same(&rt, turns, end_of(&world, 1), Some(end));
        same(&rt, turns, end_of(&world, 2), Some(WorkEnd::Posted));
        same(&rt, turns, posted(&world), Some(Conclusion::Mate));
        same(&rt, turns, world.below(&root), 0);
    }
    Ok(())
}
