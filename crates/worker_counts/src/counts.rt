// The counts, which threads share.
ghost use Rattle.std.specs.Prelude.{◌≡◌, ◌+◌, ◌<◌, ◌≤◌, ℕ, [], IfOk, length, replicate, slice_index};
ghost use Rattle.worker_counts.specs.declared.view.TheConstants.{MOST_SEATS, MOST_ADDED};
ghost use Rattle.worker_counts.specs.Counts.{times, whole, newcomer, after_load, after_add, after_subtract, after_join, with_part_less};

use crate::closed::ClosedCounts;
use crate::rule::{AddStep, LoadStep, Parts, SubtractStep, SumsOfViews};
use crate::seat::CountSeat;
use crate::view::View;
use atomic_table::Table;
use std::alloc::{AllocError, Global};
use std::marker::Model;

/// Words that count workers, numbered from 0, which threads share by `&`.
///
/// Each word is how often it stands among what all seats have added, at any time and whatever the
/// threads do. Words whose numbers follow one another lie side by side. No call but
/// [`make`](WorkerCounts::make) takes memory, and none waits or fails.
///
/// Contracts see which counts they are, with `words`, how many there are.
#[derive(Drop)]
pub struct WorkerCounts {
    table: Table<u8, View, u64, SumsOfViews, Global>,
}

impl Model for WorkerCounts {
    ghost use Rattle.std.specs.Prelude.{◌≡◌, ◌<◌};
    ghost use Rattle.atomic_table.specs.Seated.{TableId};

    ghost Value = { TableId };

    ghost view = { λ c. c.table.shared.table_id };

    ghost invariant = { λ c.
        (c.table.shared.key ≡ c.table.shared.table_id.words)
        × (c.table.shared.table_id.slots ≡ 0)
        × (0 < c.table.shared.table_id.words) };
}

impl WorkerCounts {
    /// So many words, at least one, each zero, and their first seat, which has every part. Takes
    /// eight bytes for each word, and as many again until it returns; want of memory is its one
    /// error.
    pub fn make(alloc: Global, words: usize) -> Result<(WorkerCounts, CountSeat), AllocError>
        requires { 0 < words }
        ensures words { IfOk result (λ made. made.0.words ≡ words) }
        ensures seat { IfOk result (λ made. made.1 ≡ record { counts = made.0; view = whole }) }
    {
        let zeros = vec![in alloc; 0u64; words]?;
        let size = words as u64;
        let (table, seat) = Table::of_words(alloc, zeros.as_slice(), &size)?;
        Ok((WorkerCounts { table }, CountSeat { seat }))
    }

    /// The count of a word below the number of words: at least as often as the seat has added to
    /// it. The seat keeps its last [`KEPT_LOADS`](crate::KEPT_LOADS) loads.
    pub fn load(&self, seat: &mut CountSeat, word: usize) -> u64
        requires seat { seat.old.counts ≡ self.now }
        requires word { word < self.now.words }
        ensures view { seat.new ≡ record seat.old { view = after_load seat.old.view word result } }
        ensures own { times word seat.old.view.added ≤ result }
    {
        self.table.shared.load::<LoadStep>(&mut seat.seat, word)
    }

    /// Adds one to the word, and returns its count before. The seat must have added fewer than
    /// [`MOST_ADDED`](crate::MOST_ADDED) so far.
    pub fn add(&self, seat: &mut CountSeat, word: usize) -> u64
        requires seat { seat.old.counts ≡ self.now }
        requires word { word < self.now.words }
        requires room { length seat.old.view.added < MOST_ADDED }
        ensures view { seat.new ≡ record seat.old { view = after_add seat.old.view word result } }
        ensures own { times word seat.old.view.added ≤ result }
    {
        self.table
            .shared
            .fetch_add::<AddStep>(&mut seat.seat, word, 1)
    }

    /// Takes one that the seat has added from the word again, and returns its count before.
    pub fn subtract(&self, seat: &mut CountSeat, word: usize) -> u64
        requires seat { seat.old.counts ≡ self.now }
        requires word { word < self.now.words }
        requires added { 0 < times word seat.old.view.added }
        ensures view { seat.new
            ≡ record seat.old { view = after_subtract seat.old.view word result } }
        ensures own { times word seat.old.view.added ≤ result }
    {
        self.table
            .shared
            .fetch_sub::<SubtractStep>(&mut seat.seat, word, 1)
    }

    /// A new seat of the same counts, of one part of a seat that has another. What that seat has
    /// added stays with it.
    pub fn make_seat(&self, seat: &mut CountSeat) -> CountSeat
        requires seat { seat.old.counts ≡ self.now }
        requires parts { 1 < seat.old.view.parts }
        ensures kept { seat.new ≡ record seat.old { view = with_part_less seat.old.view } }
        ensures made { result ≡ record seat.old { view = newcomer } }
    {
        CountSeat {
            seat: self.table.shared.split_seat::<Parts>(&mut seat.seat),
        }
    }

    /// Joins another seat to a seat: its parts and what it has added come over. What it has loaded
    /// doesn't.
    pub fn join_seat(&self, seat: &mut CountSeat, other: CountSeat)
        requires seats { (seat.old.counts ≡ self.now) × (other.counts ≡ self.now) }
        requires room { length seat.old.view.added + length other.view.added ≤ MOST_ADDED }
        ensures view { seat.new ≡ record seat.old { view = after_join seat.old.view other.view } }
    {
        let CountSeat { seat: joined } = other;
        self.table.shared.join_seat::<Parts>(&mut seat.seat, joined);
    }

    /// The counts as they stand once all seats are joined to one: each word is how often that seat
    /// has added to it and not subtracted from it since. Where it has subtracted all that was
    /// added, each is zero.
    pub fn close(self, seat: CountSeat) -> ClosedCounts
        requires seat { seat.counts ≡ self }
        requires every_part { seat.view.parts ≡ MOST_SEATS }
        ensures words { length result ≡ self.words }
        ensures counts { (word : ℕ) → word < self.words → slice_index result word
            ≡ times word seat.view.added }
        ensures zero { seat.view.added ≡ [] → result ≡ replicate self.words 0 }
    {
        let CountSeat { seat: last } = seat;
        let WorkerCounts { table } = self;
        ClosedCounts {
            closed: table.close_with(last),
        }
    }
}
