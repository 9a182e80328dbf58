// Whole searches by one worker alone: a mate, an escape, and those that run out; and searches that
// are cut.
mod chased;
mod scripted;

use crate::problems::{ALONE, GOLD, ROOKS, problem, settings};
use crate::same::same;
use chased::chased;
use lone_port::LonePort;
use notes::{Conclusion, Note};
use scripted::Scripted;
use search_limits::Settings;
use shogi_rules::Problem;
use std::alloc::Global;
use std::test::Fail;
use visit_log::WorkEnd;
use worker_core::{Worker, work, work_until};

#[test]
fn one_worker_searches_to_each_end(rt: HostRuntime) -> Result<(), Fail> {
    let alloc = rt.alloc();
    // A problem, the visits and the room; how the worker ends, what is posted, and the visits and
    // the room that were taken.
    let rows = [
        (
            GOLD,
            1000,
            100,
            WorkEnd::Posted,
            Some(Conclusion::Mate),
            2,
            2,
        ),
        (
            ALONE,
            1000,
            100,
            WorkEnd::Posted,
            Some(Conclusion::Escape),
            1,
            1,
        ),
        (GOLD, 1, 100, WorkEnd::Spent, None, 1, 0),
        (GOLD, 1000, 1, WorkEnd::NoRoom, None, 2, 1),
    ];
    for (text, visits, room, end, conclusion, drawn, claimed) in rows {
        let problem = problem(&rt, text);
        let mut port = LonePort::make(alloc, &problem, &settings(&rt, 1, visits, room))?;
        let mut worker = Worker::make(alloc, &problem, 1);
        same(&rt, text, work(alloc, &mut worker, &mut port), end);
        same(&rt, text, (port.drawn(), port.claimed()), (drawn, claimed));
        same(&rt, text, port.posted().map(Note::conclusion), conclusion);
    }
    Ok(())
}

// A search that is stopped at one poll, or refused memory at one look, and how it ended.
fn cut(
    alloc: Global,
    problem: &Problem,
    settings: &Settings,
    stop_at: u64,
    dark_at: u64,
) -> Result<(WorkEnd, Scripted), Fail> {
    let mut port = Scripted::make(alloc, problem, settings, stop_at, dark_at)?;
    let mut worker = Worker::make(alloc, problem, 1);
    let end = work(alloc, &mut worker, &mut port);
    Ok((end, port))
}

#[test]
fn a_search_ends_wherever_it_is_cut(rt: HostRuntime) -> Result<(), Fail> {
    let alloc = rt.alloc();
    let rooks = problem(&rt, ROOKS);
    let settings = settings(&rt, 1, 10_000, 10_000);
    let (end, whole) = cut(alloc, &rooks, &settings, 0, 0)?;
    let posted = whole.port.posted().map(Note::conclusion);
    same(&rt, "uncut", end, WorkEnd::Posted);
    same(&rt, "uncut", posted, Some(Conclusion::Mate));
    same(&rt, "uncut", whole.polls > 3 && whole.looks > 9, true);
    for poll in 1..=whole.polls {
        let (end, port) = cut(alloc, &rooks, &settings, poll, 0)?;
        same(&rt, ("stop at", poll), end, WorkEnd::Stopped);
        same(&rt, ("stop at", poll), port.enters, port.leaves);
    }
    for look in 1..=whole.looks {
        let (end, port) = cut(alloc, &rooks, &settings, 0, look)?;
        same(&rt, ("dark at", look), end, WorkEnd::NoMemory);
        same(&rt, ("dark at", look), port.enters, port.leaves);
    }
    Ok(())
}

// A search of which so many requests were answered before its worker was starved: how it ended, and
// whether all that was entered was left; none where it had ended before.
fn starved(
    alloc: Global,
    problem: &Problem,
    settings: &Settings,
    turns: u64,
) -> Result<Option<(WorkEnd, bool)>, Fail> {
    let mut port = Scripted::make(alloc, problem, settings, 0, 0)?;
    let mut worker = Worker::make(alloc, problem, 1);
    if work_until(alloc, &mut worker, &mut port, turns).is_some() {
        return Ok(None);
    }
    worker.starve();
    let end = work(alloc, &mut worker, &mut port);
    Ok(Some((end, port.enters == port.leaves)))
}

#[test]
fn a_starved_worker_leaves_what_it_has_entered(rt: HostRuntime) -> Result<(), Fail> {
    let alloc = rt.alloc();
    let rooks = problem(&rt, ROOKS);
    let settings = settings(&rt, 1, 10_000, 10_000);
    for turns in 0..40 {
        let ended = starved(alloc, &rooks, &settings, turns)?;
        same(
            &rt,
            ("starved after", turns),
            ended,
            Some((WorkEnd::NoMemory, true)),
        );
    }
    Ok(())
}

#[test]
fn a_repetition_escapes_and_no_note_is_higher_than_the_limit(rt: HostRuntime) -> Result<(), Fail> {
    let alloc = rt.alloc();
    // A rook chases a king between two positions: it gets away by repetition. Each search is told
    // what the one before found of the other position, and goes two moves further.
    let chase = [
        problem(&rt, "5k3/9/9/9/9/9/9/9/4R4 b -"),
        problem(&rt, "4k4/9/9/9/9/9/9/9/5R3 b -"),
    ];
    let settings = settings(&rt, 1, 10_000, 10_000);
    let mut known = None;
    let mut height = 0_u32;
    for turn in 0..3000_usize {
        let (end, posted) = chased(alloc, &chase[turn % 2], &settings, known.take())?;
        let Some(note) = posted else {
            same(&rt, turn, end, WorkEnd::TooHigh);
            break;
        };
        same(&rt, turn, end, WorkEnd::Posted);
        same(&rt, turn, note.conclusion(), Conclusion::Escape);
        if turn > 0 {
            same(&rt, turn, note.height(), height.wrapping_add(2));
        }
        height = note.height();
        known = Some(note);
    }
    // No note is higher than 4,096; the next one would be two higher than this.
    same(&rt, height, height == 4095 || height == 4096, true);
    Ok(())
}
