// How a shard is reached.
ghost use Rattle.std.specs.Prelude.{◌≡◌, ◌<◌, ℕ, List, Option, Some, None, length};

use crate::job::Job;
use crate::shard::JobShard;
use crossbeam_utils::CachePadded;
use std::sync::{Mutex, Wait};

/// What is done with a shard, once, while it is lent.
pub trait Task<J: Job> {
    ghost use Rattle.std.specs.Prelude.{List};
    ghost use Rattle.table_shard.specs.Entry.{EntryView};

    /// It may be run.
    ghost ready: { Self → Type 0 };

    /// What running does to it and to the shard's rows.
    ghost ran: { Self → List (List EntryView) → Self → List (List EntryView) → Type 0 };

    /// Does it.
    fn run(&mut self, shard: &mut JobShard<J>)
        requires { ready self.old }
        ensures { ran self.old shard.old self.new shard.new };

    /// A task that has run can't be run again.
    ghost once: { (before after : Self) (old new : List (List EntryView)) → ran before old after new → ready after → ⊥ };
}

/// The shards of a table, each of which can be lent for a task.
pub trait Rows<J: Job> {
    ghost use Rattle.std.specs.Prelude.{◌≡◌, ◌<◌, ℕ, List, Option};
    ghost use Rattle.table_shard.specs.Entry.{EntryView};
    ghost use Rattle.shared_table.specs.Rows.{RanOn};

    /// How many there are.
    ghost count: { Self → ℕ };

    /// The rows of each shard, where that is told.
    ghost shards: { Self → Option (List (List (List EntryView))) };

    /// How many shards there are. Takes no memory.
    fn len(&self) -> usize
        ensures { result ≡ count self.now };

    /// Lends the shard of this number, from 0, to the task, which runs once.
    fn under<T: Task<J>>(&mut self, shard: usize, task: &mut T)
        requires below { shard < count self.old }
        requires ready { T.ready task.old }
        ensures count { count self.new ≡ count self.old }
        ensures ran { RanOn J.ATTACKER (shards self.old) (shards self.new) shard
            (λ before after. T.ran task.old before task.new after) };
}

/// Shards behind locks, which threads share. A lock is held for one task, and nothing of the rows
/// is told to proofs but that the task ran between two shards that the type keeps.
#[derive(Drop)]
pub struct LockedRows<'a, J: Job, R: Wait> {
    wait: &'a R,
    shards: &'a [CachePadded<Mutex<JobShard<J>>>],
}

impl<'a, J: Job, R: Wait> LockedRows<'a, J, R> {
    /// The shards behind these locks. Takes no memory.
    pub fn new(wait: &'a R, shards: &'a [CachePadded<Mutex<JobShard<J>>>]) -> LockedRows<'a, J, R>
        ensures { length result.shards.now ≡ length shards.now }
    {
        LockedRows { wait, shards }
    }
}

impl<'a, J: Job, R: Wait> Rows<J> for LockedRows<'a, J, R> {
    ghost count = { λ rows. length rows.shards.now };

    ghost shards = { λ rows. None };

    fn len(&self) -> usize {
        self.shards.len()
    }

    fn under<T: Task<J>>(&mut self, shard: usize, task: &mut T) {
        let mut guard = self.shards[shard].lock(self.wait);
        guard.laws();
        task.run(&mut guard);
        guard.laws();
    }
}

/// Shards in a list, which one worker at a time has to itself. What each task does to the rows is
/// told to proofs.
#[derive(Drop)]
pub struct PlainRows<J: Job> {
    shards: Vec<JobShard<J>>,
}

impl<J: Job> PlainRows<J> {
    ghost use Rattle.std.specs.Prelude.{◌≡◌};

    /// These shards. Takes no memory.
    pub fn new(shards: Vec<JobShard<J>>) -> PlainRows<J>
        ensures { result.shards.items ≡ shards.items }
    {
        PlainRows { shards }
    }

    /// The shards, for their owner. Takes no memory.
    pub fn into_shards(self) -> Vec<JobShard<J>>
        ensures { result.items ≡ self.shards.items }
    {
        self.shards
    }
}

impl<J: Job> Rows<J> for PlainRows<J> {
    ghost count = { λ rows. length rows.shards.items };

    ghost shards = { λ rows. Some rows.shards.items };

    fn len(&self) -> usize {
        self.shards.len()
    }

    fn under<T: Task<J>>(&mut self, shard: usize, task: &mut T) {
        let shard = &mut self.shards[shard];
        shard.laws();
        task.run(shard);
        shard.laws();
    }
}
