// A seat at the words of a table, as a shard asks it.
ghost use Rattle.std.specs.Prelude.{◌≡◌, ◌+◌, ◌<◌, ◌≤◌, ◌^◌, length};
ghost use Rattle.worker_counts.specs.declared.view.TheConstants.{MOST_ADDED};
ghost use Rattle.worker_counts.specs.Counts.{AreBelow, SeatView, times, after_add, after_subtract};
ghost use Rattle.shared_table.specs.Seat.{RowSeatView, at_row, Adds, Subtracts};

use std::marker::Model;
use table_shard::Pins;
use worker_counts::{CountSeat, WorkerCounts};

/// A worker's seat at the words that count workers, and the row of the table whose slots it is
/// asked about: it tells how many workers are below a slot by loading the slot's word, each time
/// that it is asked.
///
/// It keeps that it is a seat of these words, and that the eight words of its row are among them.
#[derive(Drop)]
pub struct RowSeat<'a> {
    words: &'a WorkerCounts,
    seat: CountSeat,
    // The word of the row's first slot.
    row: usize,
}

impl<'a> Model for RowSeat<'a> {
    ghost use Rattle.std.specs.Prelude.{◌≡◌, ◌+◌, ◌≤◌, ◌^◌};
    ghost use Rattle.shared_table.specs.Seat.{RowSeatView};

    ghost Value = { RowSeatView };

    ghost view = { λ s. record { seat = s.seat; row = s.row } };

    ghost invariant = { λ s. (s.seat.counts ≡ s.words.now) × (s.row + 8 ≤ s.words.now.words) × (s.words.now.words ≤ 2 ^ 43) };
}

impl<'a> RowSeat<'a> {
    /// The seat at these words, at the first row, which there must be; there are at most 2 ^ 43
    /// words. Takes no memory.
    pub fn new(words: &'a WorkerCounts, seat: CountSeat) -> RowSeat<'a>
        requires seat { seat.counts ≡ words.now }
        requires row { 8 ≤ words.now.words }
        requires few { words.now.words ≤ 2 ^ 43 }
        ensures { result ≡ record { seat = seat; row = 0 } }
    {
        RowSeat {
            words,
            seat,
            row: 0,
        }
    }

    // It goes to the row whose first slot has this word.
    pub(crate) fn go_to(&mut self, word: usize)
        requires { word + 8 ≤ self.old.seat.counts.words }
        ensures { self.new ≡ at_row self.old word }
    {
        self.row = word;
    }

    // One worker more is below the slot.
    pub(crate) fn add(&mut self, slot: usize)
        requires slot { slot < 8 }
        requires room { length self.old.seat.view.added < MOST_ADDED }
        ensures { Adds self.old slot self.new }
    {
        self.words.add(&mut self.seat, self.row + slot);
    }

    // One worker less is below the slot, to which this seat has added.
    pub(crate) fn subtract(&mut self, slot: usize)
        requires slot { slot < 8 }
        requires added { 0 < times (self.old.row + slot) self.old.seat.view.added }
        ensures { Subtracts self.old slot self.new }
    {
        self.words.subtract(&mut self.seat, self.row + slot);
    }

    /// What is kept of the seat at the words. Does nothing; whoever wants to know this of it calls
    /// it.
    pub fn laws(&self)
        ensures few { length self.now.seat.view.added ≤ MOST_ADDED }
        ensures row { self.now.row + 8 ≤ self.now.seat.counts.words }
        ensures below { AreBelow self.now.seat.counts.words self.now.seat.view.added }
    {
        self.seat.laws();
    }

    /// The seat, for its owner. Takes no memory.
    pub fn into_seat(self) -> CountSeat
        ensures { result ≡ self.entry.seat }
    {
        self.seat
    }
}

impl<'a> Pins for RowSeat<'a> {
    ghost use Rattle.shared_table.specs.Seat.{Loads};

    ghost ready = { λ seat. Unit {0} };

    ghost told = { Loads };

    fn count(&mut self, slot: usize) -> u64 {
        self.words.load(&mut self.seat, self.row + slot)
    }
}
