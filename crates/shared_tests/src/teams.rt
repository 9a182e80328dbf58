// Jobs that a team does side by side.
use crate::same::same;
use side_by_side::{Jobs, Team, Until};
use std::alloc::{AllocError, Global};
use std::sync::atomic::{AtomicU64, Ordering};
use std::test::Fail;
use std::thread::Threads;

// Each job answers its number. The first ones that are asked for, so many, are refused memory.
#[derive(Drop)]
struct Numbers {
    count: usize,
    refused: u64,
    asked: AtomicU64,
}

impl Numbers {
    fn new(count: usize, refused: u64) -> Numbers {
        Numbers {
            count,
            refused,
            asked: AtomicU64::new(0),
        }
    }
}

// A thread counts the jobs that it did.
impl Jobs for Numbers {
    ghost use Rattle.std.specs.Prelude.{◌≡◌, ⊤};

    type Tools = u64;

    type Answer = usize;

    ghost is_ready = { λ jobs. ⊤ };

    ghost size = { λ jobs. jobs.count };

    ghost is_answer = { λ jobs number answer. answer ≡ number };

    fn count(&self) -> usize {
        self.count
    }

    fn tools(&self) -> u64 {
        0
    }

    fn answer(&self, _alloc: Global, tools: &mut u64, number: usize) -> Result<usize, AllocError> {
        *tools = tools.wrapping_add(1);
        if self.asked.fetch_add(1, Ordering::SeqCst) < self.refused {
            return Err(AllocError);
        }
        Ok(number)
    }
}

// Has a team of this size do jobs, of which so many are refused, and tells whether each is answered
// at its place.
fn are_answered<R: Threads + Sync>(
    rt: &R,
    alloc: Global,
    team: &mut Team<u64, usize>,
    count: usize,
    refused: u64,
) -> Result<bool, AllocError> {
    let answers = team.answers(rt, alloc, &Numbers::new(count, refused))?;
    let in_order = answers
        .iter()
        .enumerate()
        .all(|(place, answer)| place == *answer);
    Ok(in_order && answers.len() == count)
}

#[test]
fn each_job_is_answered_at_its_place(rt: HostRuntime) -> Result<(), Fail> {
    for (most, count, refused) in [
        (0, 3, 0),
        (1, 1000, 0),
        (2, 7, 1),
        (64, 1000, 1),
        (64, 1, 1),
    ] {
        let mut team = Team::new(&rt, rt.alloc(), most)?;
        same(
            &rt,
            (most, count),
            are_answered(&rt, rt.alloc(), &mut team, count, refused)?,
            true,
        );
        same(
            &rt,
            (most, "again"),
            are_answered(&rt, rt.alloc(), &mut team, 2, 0)?,
            true,
        );
    }
    Ok(())
}

#[test]
fn jobs_that_are_refused_twice_are_told_as_want_of_memory(rt: HostRuntime) -> Result<(), Fail> {
    let mut team: Team<u64, usize> = Team::new(&rt, rt.alloc(), 1)?;
    same(&rt, "size", team.size(), 1);
    let answers = team.answers(&rt, rt.alloc(), &Numbers::new(9, u64::MAX));
    same(&rt, "refused", answers.is_err(), true);
    Ok(())
}

// It is over once that was asked so many times.
#[derive(Drop)]
struct OverAfter {
    times: u64,
    asked: AtomicU64,
}

impl Until for OverAfter {
    fn is_over(&self) -> bool {
        self.asked.fetch_add(1, Ordering::SeqCst) >= self.times
    }
}

#[test]
fn no_further_job_is_taken_once_it_is_over(rt: HostRuntime) -> Result<(), Fail> {
    for (most, count, refused, times, wanted) in [
        (1, 9, 0, 0, 1),
        (1, 9, 0, 1, 1),
        (1, 9, 0, 3, 3),
        (1, 9, 1, 3, 1),
        (1, 9, 0, 100, 9),
        (64, 9, 0, 5, 5),
        (0, 9, 0, 5, 1),
        (1, 0, 0, 5, 0),
    ] {
        let mut team = Team::new(&rt, rt.alloc(), most)?;
        let until = OverAfter {
            times,
            asked: AtomicU64::new(0),
        };
        let jobs = Numbers::new(count, refused);
        let answers = team.first_answers(&rt, rt.alloc(), &jobs, &until)?;
        let in_order = answers
            .iter()
            .enumerate()
            .all(|(place, answer)| place == *answer);
        let row = (most, count, refused, times);
        same(&rt, row, (answers.len(), in_order), (wanted, true));
    }
    Ok(())
}
