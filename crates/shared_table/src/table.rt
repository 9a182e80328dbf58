// The whole table.
ghost use Rattle.std.specs.Prelude.{◌≡◌, ◌+◌, ◌*◌, ◌^◌, ◌<◌, ◌≤◌, [], ℕ, All, IfOk, length, replicate, slice_index};
ghost use Rattle.notes.specs.Derivation.{attacker_of};
ghost use Rattle.worker_counts.specs.declared.view.TheConstants.{MOST_SEATS};
ghost use Rattle.worker_counts.specs.Counts.{times, whole};

use crate::job::Job;
use crate::rows::LockedRows;
use crate::shard::JobShard;
use board_core::key;
use crossbeam_utils::CachePadded;
use notes::Note;
use search_limits::Settings;
use std::alloc::{AllocError, Global};
use std::marker::Model;
use std::sync::{Mutex, Wait};
use table_shard::site_of;
use worker_counts::{ClosedCounts, CountSeat, WorkerCounts};

/// All shards of the table of a search, each behind a lock that lies on lines of memory of its own,
/// and the words that count workers. It can be emptied for another search, whose attacker is `K`'s.
///
/// Contracts see which words it has, in how many shards it is cut, and for how many rows of each
/// shard there are words. Of what stands behind the locks they see what a [`JobShard`] keeps, and
/// no more: that a shard has these rows, and is empty where it is said to be, is shown by a test.
#[derive(Drop)]
pub struct SharedTable<J: Job, K: Job> {
    shards: Vec<CachePadded<Mutex<JobShard<J>>>>,
    // Room for as many, which are the other attacker's.
    spare: Vec<CachePadded<Mutex<JobShard<K>>>>,
    words: WorkerCounts,
    own: usize,
}

impl<J: Job, K: Job> Model for SharedTable<J, K> {
    ghost use Rattle.std.specs.Prelude.{◌≡◌, ◌*◌, ◌<◌, ◌≤◌, ◌^◌, [], length, vec_capacity};
    ghost use Rattle.shared_table.specs.Table.{SharedTableView};

    ghost Value = { SharedTableView };

    ghost view = { λ t. record { words = t.words; shards = length t.shards.items; own = t.own } };

    ghost invariant = { λ t.
        (0 < length t.shards.items)
        × (0 < t.own)
        × (length t.shards.items * t.own ≤ 2 ^ 40)
        × (t.words.words ≡ 8 * (length t.shards.items * t.own))
        × (t.spare.items ≡ [])
        × (length t.shards.items ≤ vec_capacity t.spare) };
}

// A lock around a shard.
fn locked<J: Job>(shard: JobShard<J>) -> CachePadded<Mutex<JobShard<J>>> {
    CachePadded::new(Mutex::new(shard))
}

impl<J: Job, K: Job> SharedTable<J, K> {
    /// A table with the shards and the rows of the settings, which knows nothing (what its locks
    /// hold contracts don't see), and the first seat at its words, which has every part. Takes all
    /// its memory but for that of the notes: about 1 KB a row. Errors: want of memory alone.
    pub fn make(
        alloc: Global,
        settings: &Settings,
    ) -> Result<(SharedTable<J, K>, CountSeat), AllocError>
        ensures shards { IfOk result (λ made. made.0.shards ≡ settings.now.shards) }
        ensures rows { IfOk result (λ made. made.0.shards * made.0.own ≡ settings.now.rows) }
        ensures seat { IfOk result (λ made. made.1
            ≡ record { counts = made.0.words; view = whole }) }
    {
        let count = settings.shards as usize;
        let own = (settings.rows / settings.shards) as usize;
        let spare = Vec::with_capacity(alloc, count)?;
        let mut shards = Vec::with_capacity(alloc, count)?;
        while shards.len() < count {
            shards.push(locked(JobShard::make(alloc, own)?))?;
        }
        let (words, seat) = WorkerCounts::make(alloc, 8 * (count * own))?;
        let table = SharedTable {
            shards,
            spare,
            words,
            own,
        };
        Ok((table, seat))
    }

    /// What the type keeps: it has a shard, each shard has a row, and there are eight words for
    /// each row. Does nothing; whoever wants to know this of a table calls it. Takes no memory.
    pub fn laws(&self)
        ensures shards { 0 < self.now.shards }
        ensures own { 0 < self.now.own }
        ensures few { self.now.shards * self.now.own ≤ 2 ^ 40 }
        ensures words { self.now.words.words ≡ 8 * (self.now.shards * self.now.own) }
    {
        let _kept = &self.words;
    }

    /// Its shards, for a worker on a thread. Takes no memory.
    pub fn rows<'a, R: Wait>(&'a self, wait: &'a R) -> LockedRows<'a, J, R>
        ensures { length result.shards.now ≡ self.now.shards }
    {
        LockedRows::new(wait, &self.shards)
    }

    /// How many shards it has. Takes no memory.
    pub fn shards(&self) -> usize
        ensures { result ≡ self.now.shards }
    {
        self.shards.len()
    }

    /// How many rows each of its shards has. Takes no memory.
    pub fn own(&self) -> usize
        ensures { result ≡ self.now.own }
    {
        self.own
    }

    /// Its words. Takes no memory.
    pub fn words(&self) -> &WorkerCounts
        ensures { result.now ≡ self.now.words }
    {
        &self.words
    }

    /// Takes in notes that are known before anyone searches, for the attacker: each in its shard,
    /// in order. Errors: want of memory alone.
    pub fn take_all<R: Wait>(&self, wait: &R, notes: &[Note]) -> Result<(), AllocError>
        requires { All (λ note. attacker_of note ≡ J.ATTACKER) notes.now }
    {
        for note in notes {
            self.take(wait, note.share()?);
        }
        Ok(())
    }

    // Takes in one.
    fn take<R: Wait>(&self, wait: &R, note: Note)
        requires { attacker_of note ≡ J.ATTACKER }
    {
        let site = site_of(&key(note.position()), self.shards.len(), self.own);
        let mut guard = self.shards[site.shard].lock(wait);
        guard.laws();
        guard.take(note);
        guard.laws();
    }

    /// The same table for a search of the other attacker: all entries are taken out, in the time of
    /// the rows that have some. What seats have added to the words stays. Takes no memory.
    pub fn turned(self) -> SharedTable<K, J>
        ensures { result ≡ self }
    {
        let SharedTable {
            mut shards,
            mut spare,
            words,
            own,
        } = self;
        while let Some(shard) = shards.pop() {
            spare.push_reserved(locked(shard.into_inner().into_inner().turned()));
        }
        SharedTable {
            shards: spare,
            spare: shards,
            words,
            own,
        }
    }

    /// The same table for another search of the same attacker, emptied likewise. Takes no memory.
    pub fn emptied(self) -> SharedTable<J, K>
        ensures { result ≡ self }
    {
        self.turned().turned()
    }

    /// Lets the table go, and tells the words as they stand once all seats are joined to one: each
    /// is how often that seat has added to it and not subtracted from it since. Where it has
    /// subtracted all that was added, each is zero.
    pub fn close(self, seat: CountSeat) -> ClosedCounts
        requires seat { seat.counts ≡ self.words }
        requires every_part { seat.view.parts ≡ MOST_SEATS }
        ensures words { length result ≡ 8 * (self.shards * self.own) }
        ensures counts { (word : ℕ) → word < 8 * (self.shards * self.own)
            → slice_index result word ≡ times word seat.view.added }
        ensures zero { seat.view.added ≡ [] → result ≡ replicate (8 * (self.shards * self.own)) 0 }
    {
        let SharedTable {
            shards: _,
            spare: _,
            words,
            own: _,
        } = self;
        words.close(seat)
    }
}
