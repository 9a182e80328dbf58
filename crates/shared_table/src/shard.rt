// A shard whose notes are all for one attacker.
ghost use Rattle.std.specs.Prelude.{IfSome, ◌≡◌, ◌<◌, [], IfOk, MatchResult, length, replicate, All};
ghost use Rattle.notes.specs.Derivation.{attacker_of};
ghost use Rattle.pn_numbers.specs.Numbers.{IsOpen};
ghost use Rattle.table_shard.specs.Entry.{AreFor};
ghost use Rattle.table_shard.specs.Known.{TakesNote};
ghost use Rattle.table_shard.specs.Row.{IsRow, LooksBy, IsKeptAt};
ghost use Rattle.table_shard.specs.Shard.{row_of, EntersInBy, IsLeftAt};
ghost use Rattle.table_shard.specs.Spot.{hash_of};
ghost use Rattle.visit_log.specs.Round.{MayShow};
ghost use Rattle.visit_log.specs.Sound.{IsSoundUpdate};

use crate::job::Job;
use bit_boards::Side;
use board_core::Key;
use notes::{Kept, Note, Seen, Update};
use path_tags::Path;
use pn_numbers::Numbers;
use std::alloc::{AllocError, Global};
use std::marker::{Model, PhantomData};
use table_shard::{Pins, Shard};

/// A shard of the table of a search. It keeps that all its notes are for the search's attacker.
#[derive(Drop)]
pub struct JobShard<J: Job> {
    shard: Shard,
    of: PhantomData<J>,
}

impl<J: Job> Model for JobShard<J> {
    ghost use Rattle.std.specs.Prelude.{List, All};
    ghost use Rattle.std.specs.Coded.{codes};
    ghost use Rattle.table_shard.specs.contracts.shard.Shard as held;
    ghost use Rattle.table_shard.specs.Entry.{EntryView, AreFor};

    ghost Value = { List (List EntryView) };

    ghost coded = { Prim.hlevel (codes, held.the_row.coded) };

    ghost view = { λ s. s.shard };

    ghost invariant = { λ s. All (All (AreFor J.ATTACKER)) s.shard };
}

impl<J: Job> JobShard<J> {
    /// A shard of so many rows, at least one, that knows nothing yet: about 924 bytes a row, most
    /// of which is first touched when the row is entered. Errors: want of memory alone.
    pub fn make(alloc: Global, rows: usize) -> Result<JobShard<J>, AllocError>
        requires { 0 < rows }
        ensures { IfOk result (λ shard. shard ≡ replicate rows []) }
    {
        Ok(JobShard {
            shard: Shard::make(alloc, rows)?,
            of: PhantomData,
        })
    }

    /// What the type keeps. Does nothing; whoever wants to know this of a shard calls it. Takes no
    /// memory.
    pub fn laws(&self)
        ensures some { 0 < length self.now }
        ensures rows { All IsRow self.now }
        ensures notes { All (All (AreFor J.ATTACKER)) self.now }
    {
        self.shard.laws();
    }

    /// The same rows for a search of another attacker: all entries are taken out, in the time of
    /// the rows that have some. Takes no memory.
    pub fn turned<K: Job>(self) -> JobShard<K>
        ensures { result ≡ replicate (length self) [] }
    {
        let mut shard = self.shard;
        shard.clear();
        JobShard {
            shard,
            of: PhantomData,
        }
    }

    /// What the key's row shows, by the key's hash, to a worker on the path, as `Shard::look` has
    /// it, lending to the attacker or to nobody; a note is about the key's position, for the
    /// attacker, and holds on the path, or may be carried to it. Errors: want of memory alone; then
    /// nothing was asked.
    pub fn look<P: Pins>(
        &self,
        to: Option<Side>,
        hash: u64,
        key: &Key,
        path: &Path,
        pins: &mut P,
    ) -> Result<Seen, AllocError>
        requires to { IfSome to (λ side. side ≡ J.ATTACKER) }
        requires hash { hash ≡ hash_of key.now.0 }
        requires ready { P.ready pins.old }
        ensures ready { P.ready pins.new }
        ensures looks { MatchResult result
            (λ seen. LooksBy P.told to (row_of self.now key.now) key.now path.now pins.old seen
            pins.new) (λ _. pins.old ≡ pins.new) }
        ensures may { IfOk result (MayShow J.ATTACKER key.now path.now) }
    {
        self.laws();
        let spot = self.shard.spot_at(hash);
        self.shard.look(to, spot, key, path, pins)
    }

    /// Enters a position, by its key's hash, as `Shard::enter` has it. Takes no memory.
    pub fn enter<P: Pins>(&mut self, hash: u64, key: &Key, numbers: Numbers, pins: &mut P) -> Kept
        requires hash { hash ≡ hash_of key.now.0 }
        requires ready { P.ready pins.old }
        requires open { IsOpen numbers }
        ensures ready { P.ready pins.new }
        ensures entered { EntersInBy P.told self.old key.now numbers pins.old result self.new
            pins.new }
        ensures kept { IsKeptAt (row_of self.new key.now) key.now result }
        ensures some { 0 < length self.new }
        ensures slots { All IsRow self.new }
    {
        self.shard.laws();
        let spot = self.shard.spot_at(hash);
        let kept = self.shard.enter(spot, key, numbers, pins);
        self.shard.laws();
        kept
    }

    /// Leaves a position for which entering was answered this slot, with numbers from 1 to the cap,
    /// or with a note about it for the attacker: where the slot has its entry, that is updated as
    /// `Shard::leave` has it; where it hasn't, nothing changes. Takes no memory.
    pub fn leave(&mut self, hash: u64, slot: u8, key: &Key, update: Update)
        requires hash { hash ≡ hash_of key.now.0 }
        requires sound { IsSoundUpdate J.ATTACKER key.now update }
        ensures { IsLeftAt self.old slot key.now update self.new }
    {
        self.shard.laws();
        let spot = self.shard.spot_at(hash);
        self.shard.leave_held(spot, slot, key, update);
    }

    /// Takes in a note that is known before anyone searches, for the attacker: as `Shard::take` has
    /// it. Takes no memory.
    pub fn take(&mut self, note: Note)
        requires { attacker_of note ≡ J.ATTACKER }
        ensures { TakesNote self.old note self.new }
    {
        self.shard.laws();
        self.shard.take(note);
    }
}
