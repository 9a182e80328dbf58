// Those who do jobs side by side.
ghost use Rattle.std.specs.Prelude.{◌≡◌, ◌<◌, ◌≤◌, None, All, IfOk, length, slice_index_or, slice_set, vec_len};
ghost use Rattle.side_by_side.specs.Answers.{AreAnswers};
ghost use Rattle.side_by_side.specs.Inside.{AreMade, AreAnswersAt};

use crate::jobs::Never;
use crate::member::{Member, give_back, work};
use crate::{Jobs, Until};
use rayon::current_num_threads;
use rayon::prelude::par_for_each_mut;
use std::alloc::{AllocError, Global};
use std::sync::atomic::{AtomicU64, Ordering};
use std::thread::Threads;

/// How many members a team has at most: as many threads as one call of `rayon` starts.
pub const MOST_MEMBERS: usize = 32;

/// A team, whose members do jobs side by side, each in a thread of its own. What a member works
/// with stays with it from one call to the next.
#[derive(Drop)]
pub struct Team<T, A> {
    members: Vec<Member<T, A>>,
}

// As many open places as there are jobs.
fn open<A: Drop>(alloc: Global, count: usize) -> Result<Vec<Option<A>>, AllocError>
    ensures count { IfOk result (λ slots. vec_len slots ≡ count) }
    ensures open { IfOk result (λ slots. All (λ slot. slot ≡ None) slots.items) }
{
    let mut slots = Vec::with_capacity(alloc, count)?;
    for _ in 0..count {
        slots.push(None)?;
    }
    Ok(slots)
}

// Has each member do jobs, in a thread of its own. How many were taken: the first so many, or more
// than there are.
fn work_all<J: Jobs, U: Until, R: Threads + Sync>(
    rt: &R,
    alloc: Global,
    jobs: &J,
    members: &mut [Member<J::Tools, J::Answer>],
    until: &U,
) -> usize
    requires { J.is_ready jobs.now }
    ensures count { length members.new ≡ length members.old }
    ensures made { All (λ member. AreMade (J.is_answer jobs.now) member.made.items) members.new }
{
    let next = AtomicU64::new(0);
    par_for_each_mut(
        rt,
        members,
        |_: usize, member: &mut Member<J::Tools, J::Answer>|
            requires { J.is_ready jobs.now }
            ensures { AreMade (J.is_answer jobs.entry.now) member.new.made.items }
        { work(alloc, jobs, member, &next, until) },
    );
    next.load(Ordering::SeqCst) as usize
}

// Puts what all members made where it stands.
fn gather<J: Jobs>(
    jobs: &J,
    members: &mut [Member<J::Tools, J::Answer>],
    slots: &mut [Option<J::Answer>],
)
    requires made { All (λ member. AreMade (J.is_answer jobs.now) member.made.items) members.old }
    requires slots { AreAnswersAt (J.is_answer jobs.now) slots.old }
    ensures members { length members.new ≡ length members.old }
    ensures count { length slots.new ≡ length slots.old }
    ensures slots { AreAnswersAt (J.is_answer jobs.now) slots.new }
{
    for at in 0..members.len() {
        give_back(jobs, &mut members[at], slots);
    }
}

fn taken<A>(slots: &mut [Option<A>], number: usize) -> Option<A>
    requires { number < length slots.old }
    ensures answer { result ≡ slice_index_or slots.old number None }
    ensures open { slots.new ≡ slice_set slots.old number None }
{
    slots[number].take()
}

// The answer that stands at the place of a job, or else the one that is made now.
fn answer_at<J: Jobs>(
    alloc: Global,
    jobs: &J,
    tools: &mut J::Tools,
    slots: &mut [Option<J::Answer>],
    number: usize,
) -> Result<J::Answer, AllocError>
    requires ready { J.is_ready jobs.now }
    requires number { number < length slots.old }
    requires count { length slots.old ≡ J.size jobs.now }
    requires slots { AreAnswersAt (J.is_answer jobs.now) slots.old }
    ensures count { length slots.new ≡ length slots.old }
    ensures slots { AreAnswersAt (J.is_answer jobs.now) slots.new }
    ensures answer { IfOk result (J.is_answer jobs.now number) }
{
    match taken(slots, number) {
        Some(answer) => Ok(answer),
        None => jobs.answer(alloc, tools, number),
    }
}

// The answers of the first so many jobs in order: one that is still open is done now.
fn in_order<J: Jobs>(
    alloc: Global,
    jobs: &J,
    slots: &mut [Option<J::Answer>],
    count: usize,
) -> Result<Vec<J::Answer>, AllocError>
    requires ready { J.is_ready jobs.now }
    requires count { length slots.old ≡ J.size jobs.now }
    requires there { count ≤ length slots.old }
    requires slots { AreAnswersAt (J.is_answer jobs.now) slots.old }
    ensures { IfOk result (λ answers. AreAnswers count (J.is_answer jobs.now) answers.items) }
{
    let mut answers = Vec::with_capacity(alloc, count)?;
    let mut tools = jobs.tools();
    for number in 0..count {
        let answer = answer_at(alloc, jobs, &mut tools, slots, number)?;
        answers.push(answer)?;
    }
    Ok(answers)
}

// Whether one of the first so many places is open.
fn any_open<A>(slots: &[Option<A>], count: usize) -> bool {
    slots.iter().take(count).any(|slot| slot.is_none())
}

impl<T: Drop, A: Drop> Team<T, A> {
    /// A team of so many members, but of no more than there are processors (one where that isn't
    /// known), and of at most [`MOST_MEMBERS`]. Errors: want of memory alone.
    pub fn new<R: Threads>(rt: &R, alloc: Global, most: usize) -> Result<Team<T, A>, AllocError> {
        let count = most.min(current_num_threads(rt)).min(MOST_MEMBERS);
        let mut members = Vec::with_capacity(alloc, count)?;
        for _ in 0..count {
            members.push(Member::new(alloc))?;
        }
        Ok(Team { members })
    }

    /// How many jobs are done at a time, at least one.
    pub fn size(&self) -> usize
        ensures { 1 ≤ result }
    {
        self.members.len().max(1)
    }

    // Has all members let go what they work with.
    fn rest(&mut self) {
        for at in 0..self.members.len() {
            self.members[at].rest();
        }
    }
}

impl<T: Send + Drop, A: Send + Drop> Team<T, A> {
    /// Does jobs side by side: there is one answer for each, in the order of their numbers, and
    /// each is what its job's answers are.
    ///
    /// A member that wants memory stops, and the others go on; what is then still open is done when
    /// they are over and have let go what they worked with, one job after another. Errors: want of
    /// memory alone.
    pub fn answers<J: Jobs<Tools = T, Answer = A>, R: Threads + Sync>(
        &mut self,
        rt: &R,
        alloc: Global,
        jobs: &J,
    ) -> Result<Vec<A>, AllocError>
        requires { J.is_ready jobs.now }
        ensures { IfOk result
            (λ answers. AreAnswers (J.size jobs.now) (J.is_answer jobs.now) answers.items) }
    {
        let mut slots = open(alloc, jobs.count())?;
        work_all(rt, alloc, jobs, &mut self.members, &Never);
        gather(jobs, &mut self.members, &mut slots);
        let count = slots.len();
        if any_open(&slots, count) {
            self.rest();
        }
        in_order(alloc, jobs, &mut slots, count)
    }

    /// Does jobs side by side as [`answers`](Team::answers) does, but no further one is taken once
    /// it is over: there is one answer for each of the first jobs, as many as were taken by then,
    /// and at least one where there are jobs. Errors: want of memory alone.
    pub fn first_answers<J: Jobs<Tools = T, Answer = A>, U: Until, R: Threads + Sync>(
        &mut self,
        rt: &R,
        alloc: Global,
        jobs: &J,
        until: &U,
    ) -> Result<Vec<A>, AllocError>
        requires { J.is_ready jobs.now }
        ensures first { IfOk result (λ answers. length answers.items ≤ J.size jobs.now) }
        ensures some { IfOk result (λ answers. 0 < J.size jobs.now → 0 < length answers.items) }
        ensures answers { IfOk result (λ answers.
            AreAnswers (length answers.items) (J.is_answer jobs.now) answers.items) }
    {
        let mut slots = open(alloc, jobs.count())?;
        let taken = work_all(rt, alloc, jobs, &mut self.members, until);
        gather(jobs, &mut self.members, &mut slots);
        let count = taken.max(1).min(slots.len());
        if any_open(&slots, count) {
            self.rest();
        }
        in_order(alloc, jobs, &mut slots, count)
    }
}
