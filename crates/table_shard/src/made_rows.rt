// The rows of a shard, each made when its first position comes.
ghost use Rattle.std.specs.Prelude.{◌≡◌, ◌<◌, ◌+◌, [], ℕ, All, IfOk, IfSome, IfNone, IsSomeAnd, length, replicate, slice_get, slice_index, slice_index_or, slice_set};
ghost use Rattle.pn_numbers.specs.Numbers.{IsOpen};
ghost use Rattle.table_shard.specs.Entry.{FitsKey};
ghost use Rattle.table_shard.specs.Row.{IsRow, left};
ghost use Rattle.table_shard.specs.Spot.{mark_of};

use crate::pins::Pins;
use crate::row::Row;
use board_core::Key;
use notes::{Kept, Update};
use pn_numbers::Numbers;
use std::alloc::{AllocError, Global};

// A shard has fewer rows than this: a row's number has 32 bits.
const ROWS_END: usize = 1 << 32;

// The rows of all places. So that a search of a few positions costs no more than these, a row is
// made when its place is first entered; memory for all is there from the start.
#[derive(Drop)]
pub(crate) struct Rows {
    // The number of each place's row among those that are made; 0 where it has none yet.
    numbers: Vec<u32>,
    // The rows by number. The first has no entries, and never gets one.
    made: Vec<Row>,
    // The places of the others, in the order of their numbers.
    places: Vec<usize>,
}

impl Rows {
    ghost use Rattle.table_shard.specs.Made.{AreRows, EntersAt, rows_of};

    // So many rows without entries. Errors: want of memory, which 2^32 rows always are.
    pub(crate) fn make(alloc: Global, rows: usize) -> Result<Rows, AllocError>
        ensures kept { IfOk result AreRows }
        ensures free { IfOk result (λ made. rows_of made ≡ replicate rows []) }
    {
        if rows >= ROWS_END {
            return Err(AllocError);
        }
        let numbers = vec![in alloc; 0; rows]?;
        let places = Vec::with_capacity(alloc, rows)?;
        let mut made = Vec::with_capacity(alloc, rows + 1)?;
        made.push_reserved(Row::empty());
        Ok(Rows {
            numbers,
            made,
            places,
        })
    }

    // How many there are.
    pub(crate) fn len(&self) -> usize
        ensures { result ≡ length (rows_of self.now) }
    {
        self.numbers.len()
    }

    // What is kept of each row. Does nothing.
    pub(crate) fn laws(&self)
        requires { AreRows self.now }
        ensures { All IsRow (rows_of self.now) }
    {
        let _kept = &self.made;
    }

    // The row at a place.
    pub(crate) fn at(&self, place: usize) -> &Row
        requires kept { AreRows self.now }
        requires there { place < length (rows_of self.now) }
        ensures { result.now ≡ slice_index_or (rows_of self.now) place [] }
    {
        &self.made[self.numbers[place] as usize]
    }

    // The number of a place's own row, which is made where there is none yet.
    fn own(&mut self, place: usize) -> usize
        requires kept { AreRows self.old }
        requires there { place < length (rows_of self.old) }
        ensures kept { AreRows self.new }
        ensures same { rows_of self.new ≡ rows_of self.old }
        ensures number { result ≡ slice_index self.new.numbers.items place }
        ensures own { 0 < result }
    {
        let known = self.numbers[place];
        if known != 0 {
            return known as usize;
        }
        let number = self.made.len();
        self.made.push_reserved(Row::empty());
        self.places.push_reserved(place);
        self.numbers[place] = number as u32;
        number
    }

    // Enters the key into the row at a place, with these numbers where it is new.
    pub(crate) fn enter<P: Pins>(
        &mut self,
        place: usize,
        mark: u32,
        key: &Key,
        numbers: Numbers,
        pins: &mut P,
    ) -> Kept
        requires kept { AreRows self.old }
        requires there { place < length (rows_of self.old) }
        requires mark { mark ≡ mark_of key.now }
        requires ready { P.ready pins.old }
        requires open { IsOpen numbers }
        ensures kept { AreRows self.new }
        ensures ready { P.ready pins.new }
        ensures enters { EntersAt P.told (rows_of self.old) place key.now numbers pins.old result
            (rows_of self.new) pins.new }
    {
        let number = self.own(place);
        let row = &mut self.made[number];
        let kept = row.enter(mark, key, numbers, pins);
        row.laws();
        kept
    }

    // Makes an update to the entry in a slot of the row at a place.
    pub(crate) fn leave(&mut self, place: usize, slot: usize, update: Update)
        requires kept { AreRows self.old }
        requires there { place < length (rows_of self.old) }
        requires fits { IsSomeAnd (slice_get (slice_index_or (rows_of self.old) place []) slot)
            (λ entry. FitsKey entry.key update) }
        ensures kept { AreRows self.new }
        ensures left { rows_of self.new ≡ slice_set (rows_of self.old) place
            (left (slice_index_or (rows_of self.old) place []) slot update) }
    {
        let number = self.numbers[place] as usize;
        let row = &mut self.made[number];
        row.leave(slot, update);
        row.laws();
    }

    // Takes all entries out of the row that was made last, and tells its place; none where no row
    // has an entry.
    pub(crate) fn free_last(&mut self) -> Option<usize>
        requires kept { AreRows self.old }
        ensures kept { AreRows self.new }
        ensures there { IfSome result (λ place. place < length (rows_of self.old)) }
        ensures freed { IfSome result (λ place. rows_of self.new
            ≡ slice_set (rows_of self.old) place []) }
        ensures fewer { IfSome result (λ place. length self.new.places.items + 1
            ≡ length self.old.places.items) }
        ensures none { IfNone result (rows_of self.new ≡ replicate (length (rows_of self.old)) []) }
        ensures same { IfNone result (rows_of self.new ≡ rows_of self.old) }
    {
        let place = self.places.pop()?;
        self.made.pop();
        self.numbers[place] = 0;
        Some(place)
    }
}
