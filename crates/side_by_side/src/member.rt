// One who does jobs, in one thread.
ghost use Rattle.std.specs.Prelude.{◌≡◌, Some, length, slice_set};
ghost use Rattle.side_by_side.specs.Inside.{AreMade, AreAnswersAt};

use crate::{Jobs, Until};
use std::alloc::{AllocError, Global};
use std::sync::atomic::{AtomicU64, Ordering};

// What the job of a number answered.
#[derive(Drop)]
struct Made<A> {
    number: usize,
    answer: A,
}

/// One of a team: what it works with, once it had a job, and what the jobs answered that it did.
#[derive(Drop)]
pub(crate) struct Member<T, A> {
    tools: Option<T>,
    made: Vec<Made<A>>,
}

impl<T: Drop, A: Drop> Member<T, A> {
    /// One that had no job yet. Takes no memory.
    pub(crate) fn new(alloc: Global) -> Member<T, A> {
        Member {
            tools: None,
            made: Vec::new(alloc),
        }
    }

    /// Lets go what it works with.
    pub(crate) fn rest(&mut self) {
        self.tools = None;
    }
}

// Does the jobs that are next, one after another, till there are none, or till no further one is to
// be taken. Where memory is wanted it stops, and leaves its job open.
fn do_jobs<J: Jobs, U: Until>(
    alloc: Global,
    jobs: &J,
    tools: &mut J::Tools,
    next: &AtomicU64,
    until: &U,
) -> Vec<Made<J::Answer>>
    requires { J.is_ready jobs.now }
    ensures { AreMade (J.is_answer jobs.now) result.items }
{
    let mut all = Vec::new(alloc);
    let count = jobs.count();
    for _ in 0..count {
        if until.is_over() {
            return all;
        }
        let number = next.fetch_add(1, Ordering::SeqCst) as usize;
        if number >= count {
            return all;
        }
        let Ok(answer) = jobs.answer(alloc, tools, number) else {
            return all;
        };
        if all.push(Made { number, answer }).is_err() {
            return all;
        }
    }
    all
}

/// Has a member do jobs: each the next one that no other has taken.
pub(crate) fn work<J: Jobs, U: Until>(
    alloc: Global,
    jobs: &J,
    member: &mut Member<J::Tools, J::Answer>,
    next: &AtomicU64,
    until: &U,
)
    requires { J.is_ready jobs.now }
    ensures { AreMade (J.is_answer jobs.now) member.new.made.items }
{
    let mut tools = match member.tools.take() {
        Some(tools) => tools,
        None => jobs.tools(),
    };
    member.made = do_jobs(alloc, jobs, &mut tools, next, until);
    member.tools = Some(tools);
}

fn put<A: Drop>(slots: &mut [Option<A>], number: usize, answer: A)
    ensures { slots.new ≡ slice_set slots.old number (Some answer) }
{
    if number < slots.len() {
        slots[number] = Some(answer);
    }
}

/// Puts what a member made where it stands.
pub(crate) fn give_back<J: Jobs>(
    jobs: &J,
    member: &mut Member<J::Tools, J::Answer>,
    slots: &mut [Option<J::Answer>],
)
    requires made { AreMade (J.is_answer jobs.now) member.old.made.items }
    requires slots { AreAnswersAt (J.is_answer jobs.now) slots.old }
    ensures count { length slots.new ≡ length slots.old }
    ensures slots { AreAnswersAt (J.is_answer jobs.now) slots.new }
{
    while let Some(made) = member.made.pop() {
        put(slots, made.number, made.answer);
    }
}
