// A shard of the table.
ghost use Rattle.std.specs.Prelude.{◌≡◌, ◌<◌, ◌↔◌, [], ℕ, List, IfOk, IfSome, IfNone, MatchResult, IsTrue, All, length, replicate, slice_index_or};
ghost use Rattle.board_core.specs.declared.keys.Key.{Key};
ghost use Rattle.pn_numbers.specs.Numbers.{IsOpen};
ghost use Rattle.table_shard.specs.Entry.{EntryView, FitsKey};
ghost use Rattle.table_shard.specs.Row.{HoldsAt, Lacks, IsRow, IsKeptAt, LooksBy, left};
ghost use Rattle.table_shard.specs.Shard.{row_of, with_row, EntersInBy, StaysAt, IsLeftAt};
ghost use Rattle.table_shard.specs.Spot.{hash_of, spot_of};
ghost use Rattle.table_shard.specs.Emptied.{AreUncounted};
ghost use Rattle.table_shard.specs.Known.{TakesNote};

use crate::hash::{Spot, hash_of, spot_at};
use crate::made_rows::Rows;
use crate::pins::{Pins, RowPins};
use board_core::{Key, Side, key};
use notes::{Kept, Note, Seen, Update};
use path_tags::Path;
use pn_numbers::Numbers;
use std::alloc::{AllocError, Global};
use std::marker::Model;

/// Rows of eight slots, in which a search keeps what it knows of positions. Which row a position
/// has, its key says: whoever asks of a position hands in its [`Spot`] among the shard's rows,
/// reckoned once by [`Shard::spot_of`].
///
/// It keeps that it has a row, that each entry is true (its numbers are both from 1 to the cap, its
/// notes are about its position, and one that holds on every path stands alone), and that no two
/// entries of a row are of one position.
///
/// Looking and entering ask how many workers are below a slot's entry, where it matters ([`Pins`]).
/// A full row gives up an entry that no worker is below; only looking can want memory once the
/// shard is made.
#[derive(Drop)]
pub struct Shard {
    rows: Rows,
}

impl Model for Shard {
    ghost use Rattle.std.specs.Prelude.{List};
    ghost use Rattle.std.specs.Coded.{codes};
    ghost use Rattle.table_shard.specs.contracts.row.Row as row;
    ghost use Rattle.table_shard.specs.Entry.{EntryView};
    ghost use Rattle.table_shard.specs.Made.{IsShard, rows_of};

    ghost Value = { List (List EntryView) };

    ghost coded = { Prim.hlevel (codes, row.the_row.coded) };

    ghost view = { λ s. rows_of s.rows };

    ghost invariant = { λ s. IsShard s.rows };
}

impl Shard {
    /// A shard of so many rows, which needs at least one, and all its memory but for that of the
    /// notes: about 924 bytes a row, of which all but four are first touched when the row is first
    /// entered. Errors: want of memory alone, which 2^32 rows always are.
    pub fn make(alloc: Global, rows: usize) -> Result<Shard, AllocError>
        requires { 0 < rows }
        ensures { IfOk result (λ shard. shard ≡ replicate rows []) }
    {
        let rows = Rows::make(alloc, rows)?;
        Ok(Shard { rows })
    }

    /// What the type keeps: it has a row, and each row has at most eight entries, each true, no two
    /// of one position. Does nothing; whoever wants to know this of a shard calls it. Takes no
    /// memory.
    pub fn laws(&self)
        ensures some { 0 < length self.now }
        ensures rows { All IsRow self.now }
    {
        self.rows.laws();
    }

    /// Takes all entries out, for the search of another problem, and sets the counts beside each
    /// row that had some to zero, in the time of the rows that have some. The counts are one of
    /// eight for each row, and those beside rows without entries are zero. Takes no memory.
    pub fn empty(&mut self, pins: &mut [[u32; 8]])
        requires { AreUncounted self.old pins.old }
        ensures rows { self.new ≡ replicate (length self.old) [] }
        ensures pins { pins.new ≡ replicate (length self.old) (replicate 8 0) }
    {
        while let Some(place) = self.rows.free_last() {
            pins[place] = [0; 8];
        }
    }

    /// Takes all entries out, for the search of another problem, in the time of the rows that have
    /// some. Takes no memory.
    pub fn clear(&mut self)
        ensures { self.new ≡ replicate (length self.old) [] }
    {
        while self.rows.free_last().is_some() {}
    }

    /// Where it has the position of a key: in the row that a hash of the key's words without the
    /// hands, modulo its rows, names. Whoever keeps counts beside its rows keeps them at these
    /// places. Takes no memory.
    pub fn spot_of(&self, key: &Key) -> Spot
        ensures spot { result ≡ spot_of key.now (length self.now) }
        ensures there { result.place < length self.now }
    {
        self.spot_at(hash_of(key))
    }

    /// The same for a key whose hash this is, which [`site_of`](crate::site_of) tells. Takes no
    /// memory.
    pub fn spot_at(&self, hash: u64) -> Spot
        ensures spot { (key : Key) → hash ≡ hash_of key.0 → result ≡ spot_of key (length self.now) }
        ensures there { result.place < length self.now }
    {
        spot_at(hash, self.rows.len())
    }

    /// How many entries the row at a place has; 0 where there is no such row. Takes no memory.
    pub fn count(&self, place: usize) -> usize
        ensures { result ≡ length (slice_index_or self.now place []) }
    {
        if place < self.rows.len() {
            self.rows.at(place).count()
        } else {
            0
        }
    }

    /// The slot of the key's entry; none where its row has none. Takes no memory.
    pub fn slot_of(&self, spot: Spot, key: &Key) -> Option<usize>
        requires { spot ≡ spot_of key.now (length self.now) }
        ensures there { IfSome result (λ slot. slot < 8) }
        ensures some { IfSome result (λ slot. HoldsAt (row_of self.now key.now) slot key.now) }
        ensures none { IfNone result (Lacks (row_of self.now key.now) key.now) }
    {
        self.rows.at(spot.place).slot_of(spot.mark, key)
    }

    // Whether the slot of the key's row has the key's entry.
    fn holds(&self, spot: Spot, slot: u8, key: &Key) -> bool
        requires { spot ≡ spot_of key.now (length self.now) }
        ensures { IsTrue result ↔ HoldsAt (row_of self.now key.now) slot key.now }
    {
        self.rows.at(spot.place).holds(slot, key)
    }

    /// What the table shows of a position to a worker on the path, the first that there is: Solved
    /// with the first note of its entry that holds on the path; Lent with the note of the first
    /// other entry of its board that holds on every path and may be carried to it, for the attacker
    /// `to`, where notes are lent at all; Open with the numbers of its entry and how many workers
    /// are below, which is asked for then alone; New where it has no entry of the key. The note is
    /// shared. Errors: want of memory alone; then nothing was asked.
    pub fn look<P: Pins>(
        &self,
        to: Option<Side>,
        spot: Spot,
        key: &Key,
        path: &Path,
        pins: &mut P,
    ) -> Result<Seen, AllocError>
        requires spot { spot ≡ spot_of key.now (length self.now) }
        requires ready { P.ready pins.old }
        ensures ready { P.ready pins.new }
        ensures looks { MatchResult result
            (λ seen. LooksBy P.told to (row_of self.now key.now) key.now path.now pins.old seen
            pins.new) (λ _. pins.old ≡ pins.new) }
    {
        self.rows
            .at(spot.place)
            .look(to, spot.mark, key, path, pins)
    }

    /// Enters a position: answers the slot of its entry. Where it has none, it gets one with these
    /// numbers, both from 1 to the cap, in the row's first free slot, else in that of an entry that
    /// no worker is below, which is given up: the first without a note that holds on every path,
    /// else the first. Unkept exactly where eight other entries have workers below. Where an entry
    /// has to be given up, the counts of all eight slots are asked for, in their order, and else
    /// none. Takes no memory.
    pub fn enter<P: Pins>(&mut self, spot: Spot, key: &Key, numbers: Numbers, pins: &mut P) -> Kept
        requires spot { spot ≡ spot_of key.now (length self.old) }
        requires ready { P.ready pins.old }
        requires open { IsOpen numbers }
        ensures ready { P.ready pins.new }
        ensures entered { EntersInBy P.told self.old key.now numbers pins.old result self.new
            pins.new }
        ensures kept { IsKeptAt (row_of self.new key.now) key.now result }
    {
        self.rows.enter(spot.place, spot.mark, key, numbers, pins)
    }

    /// Leaves a position whose entry is in the slot, with what was found out. A note that holds on
    /// every path replaces all notes; any other goes last, unless one that holds on every path is
    /// there or it depends on more than 32 positions, and where there are four the first goes. A
    /// note leaves the numbers as they are. Takes no memory.
    pub fn leave(&mut self, spot: Spot, slot: u8, key: &Key, update: Update)
        requires spot { spot ≡ spot_of key.now (length self.old) }
        requires there { HoldsAt (row_of self.old key.now) slot key.now }
        requires fits { FitsKey key.now update }
        ensures left { self.new
            ≡ with_row self.old key.now (left (row_of self.old key.now) slot update) }
        ensures stays { (other : Key) (place : ℕ) → StaysAt self.old self.new other place }
    {
        self.rows.leave(spot.place, slot as usize, update);
    }

    /// Leaves a position for which entering was answered this slot, as [`leave`](Shard::leave)
    /// does, where the slot has its entry; where it hasn't, nothing changes. So nobody has to know
    /// that the entry is still there. Takes no memory.
    pub fn leave_held(&mut self, spot: Spot, slot: u8, key: &Key, update: Update)
        requires spot { spot ≡ spot_of key.now (length self.old) }
        requires fits { FitsKey key.now update }
        ensures left { IsLeftAt self.old slot key.now update self.new }
        ensures stays { (other : Key) (place : ℕ) → StaysAt self.old self.new other place }
    {
        if self.holds(spot, slot, key) {
            self.leave(spot, slot, key, update);
        }
    }

    /// Takes in a note that is known before anyone searches: its position is entered with the
    /// numbers (1,1), where no worker is below any slot, and left with the note. Takes no memory.
    pub fn take(&mut self, note: Note)
        ensures { TakesNote self.old note self.new }
    {
        self.laws();
        note.laws();
        let key = key(note.position());
        let spot = self.spot_of(&key);
        let mut pins = RowPins { counts: &[0; 8] };
        let kept = self.enter(spot, &key, Numbers::ONE, &mut pins);
        match kept {
            Kept::Slot(slot) => self.leave_held(spot, slot, &key, Update::Note(note)),
            // No worker is below any slot, so that one is free, or is given up.
            Kept::Unkept => {}
        }
    }
}
