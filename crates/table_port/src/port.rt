// The port.
ghost use Rattle.std.proofs.Props.{props};
ghost use Rattle.std.specs.Prelude.{IfSome, ◌≡◌, ◌+◌, ◌*◌, ◌<◌, ◌≤◌, ◌^◌, ℕ};
ghost use Rattle.lone_port.specs.Lone.{worker_at_first};
ghost use Rattle.worker_core.specs.Port.{Suits};
ghost use Rattle.table_port.specs.Port.{IsUnused, book_of};

use crate::parts::{Cut, Seats, Watch};
use crate::tasks::{enter_on, leave_on, look_on};
use board_core::Key;
use notes::{Draw, Kept, Note, RoomAnswer, Seen, Update};
use path_tags::Path;
use pn_numbers::Numbers;
use search_gate::{Gate, Stop};
use shared_table::{Job, Rows};
use std::alloc::AllocError;
use std::marker::PhantomData;
use std::mem;
use table_shard::site_of;
use visit_log::Child;
use word_desk::DeskSeat;
use worker_core::Port;
use worker_counts::{CountSeat, view_laws};

/// The shared table of positions and the shared desk of a search, for one worker; the gate that the
/// worker passes behind each visit that it draws; and the stop that each of its polls asks.
///
/// It keeps that its seats are of the words and of the desk, each with one part; that there are as
/// many shards as the cut says, and eight words for each row that it says; and that the desk's
/// problem has the job's attacker, to whom alone the table lends. That each shard has so many rows
/// isn't kept: behind a lock nobody could tell.
#[derive(Drop)]
pub struct TablePort<'a, J: Job, R: Rows<J>, G: Gate, T: Stop> {
    rows: R,
    cut: Cut,
    seats: Seats<'a>,
    watch: Watch<'a, G, T>,
    of: PhantomData<J>,
    ghost counted: { R.count rows ≡ cut.shards },
    ghost some: { (0 < cut.shards) × (0 < cut.own) × (cut.shards * cut.own ≤ 2 ^ 40) },
    ghost eight: { seats.row.seat.counts.words ≡ 8 * (cut.shards * cut.own) },
    ghost seated: { seats.desk_seat.desk ≡ seats.desk.now },
    ghost attacks: { seats.desk.now.position.side ≡ J.ATTACKER },
    ghost his: { IfSome cut.to (λ side. side ≡ J.ATTACKER) } by { Prim.hlevel props },
    ghost parted: { (seats.row.seat.view.parts ≡ 1) × (seats.desk_seat.parts ≡ 1) },
}

impl<'a, J: Job, R: Rows<J>, G: Gate, T: Stop> TablePort<'a, J, R, G, T> {
    /// The port over these rows, cut as `cut` says. Its seats are at the table's words, of which
    /// there are eight for each row, and at the desk, each with one part. The desk's problem has
    /// the job's attacker, and the table lends to no other. Takes no memory.
    pub fn new(
        rows: R,
        cut: Cut,
        seats: Seats<'a>,
        watch: Watch<'a, G, T>,
    ) -> TablePort<'a, J, R, G, T>
        requires counted { R.count rows ≡ cut.shards }
        requires some { (0 < cut.shards) × (0 < cut.own) × (cut.shards * cut.own ≤ 2 ^ 40) }
        requires eight { seats.row.seat.counts.words ≡ 8 * (cut.shards * cut.own) }
        requires seated { seats.desk_seat.desk ≡ seats.desk.now }
        requires attacks { seats.desk.now.position.side ≡ J.ATTACKER }
        requires his { IfSome cut.to (λ side. side ≡ J.ATTACKER) }
        requires parted { (seats.row.seat.view.parts ≡ 1) × (seats.desk_seat.parts ≡ 1) }
        ensures rows { result.rows ≡ rows }
        ensures cut { result.cut ≡ cut }
        ensures seats { result.seats ≡ seats.entry }
        ensures watch { result.watch ≡ watch.entry }
        // Where its seats have done nothing, a worker in the search of the problem may begin to
        // work over it.
        ensures suits { IsUnused seats.entry.row seats.entry.desk_seat → (number : ℕ)
            → Suits (worker_at_first seats.entry.desk.now.position number)
            (book_of (record {
              cut = cut;
              shards = R.shards rows;
              seat = seats.entry.row;
              desk =
                  seats.entry.desk_seat;
            })) }
    {
        TablePort {
            rows,
            cut,
            seats,
            watch,
            of: PhantomData,
        }
    }

    /// How the table is cut. Takes no memory.
    pub fn cut(&self) -> Cut
        ensures { result ≡ self.now.cut }
    {
        self.cut
    }

    /// Exchanges its rows for others, of as many shards, and its stop for another. So several ports
    /// of one table can work in turn over rows that are at one of them at a time. Takes no memory.
    pub fn exchange(&mut self, rows: &mut R, stop: &mut T)
        requires { R.count rows.old ≡ self.old.cut.shards }
        ensures rows { (self.new.rows ≡ rows.old) × (rows.new ≡ self.old.rows) }
        ensures stop { (self.new.watch.stop ≡ stop.old) × (stop.new ≡ self.old.watch.stop) }
        ensures cut { self.new.cut ≡ self.old.cut }
        ensures seats { (self.new.seats.row ≡ self.old.seats.row)
            × (self.new.seats.desk_seat ≡ self.old.seats.desk_seat) }
    {
        mem::swap(&mut self.rows, rows);
        mem::swap(&mut self.watch.stop, stop);
    }

    /// The rows, the seats, each with the one part that it had, and the stop, for their owner.
    /// Takes no memory.
    pub fn into_parts(self) -> (R, CountSeat, DeskSeat, T)
        ensures parts { (result.1.view.parts ≡ 1) × (result.2.parts ≡ 1) }
        ensures desk { result.2.desk ≡ self.entry.seats.desk.now }
        ensures all { (result.0 ≡ self.entry.rows) × (result.1 ≡ self.entry.seats.row.seat)
            × (result.2 ≡ self.entry.seats.desk_seat) × (result.3 ≡ self.entry.watch.stop) }
    {
        let Seats {
            row,
            desk: _,
            desk_seat,
        } = self.seats;
        (self.rows, row.into_seat(), desk_seat, self.watch.stop)
    }
}

impl<'a, J: Job, R: Rows<J>, G: Gate, T: Stop> Port for TablePort<'a, J, R, G, T> {
    ghost use Rattle.std.specs.Prelude.{◌≡◌};
    ghost use Rattle.table_port.specs.Port.{TablePortView, TableTurns, book_of};

    ghost book = { λ p. book_of (record { cut = p.cut; shards = R.shards p.rows; seat = p.seats.row; desk = p.seats.desk_seat }) };

    ghost turn = { λ p path request answer q. TableTurns
        (record { cut = p.cut; shards = R.shards p.rows; seat = p.seats.row; desk = p.seats.desk_seat }) (T.signal p.watch.stop) path request answer
        (record { cut = q.cut; shards = R.shards q.rows; seat = q.seats.row; desk = q.seats.desk_seat }) (T.signal q.watch.stop) };

    fn poll(&mut self) -> bool {
        self.watch.stop.poll()
    }

    fn draw(&mut self) -> Draw {
        let draw = self.seats.desk.draw(&mut self.seats.desk_seat);
        self.seats.desk_seat.laws();
        if let Draw::Go(visit) = draw {
            self.watch.gate.pass(self.watch.number, visit);
        }
        draw
    }

    fn claim(&mut self) -> RoomAnswer {
        self.seats.desk.claim(&mut self.seats.desk_seat)
    }

    fn look(&mut self, key: &Key, path: &Path) -> Result<Seen, AllocError> {
        let site = site_of(key, self.cut.shards, self.cut.own);
        look_on(
            &mut self.rows,
            &mut self.seats.row,
            self.cut.to,
            site,
            key,
            path,
        )
    }

    fn enter(&mut self, key: &Key, numbers: Numbers) -> Kept {
        view_laws();
        let site = site_of(key, self.cut.shards, self.cut.own);
        enter_on(&mut self.rows, &mut self.seats.row, site, key, numbers)
    }

    fn leave(&mut self, kept: Kept, key: &Key, update: Update) {
        view_laws();
        let Kept::Slot(_) = kept else {
            return;
        };
        self.seats.row.laws();
        let site = site_of(key, self.cut.shards, self.cut.own);
        leave_on(&mut self.rows, &mut self.seats.row, site, kept, key, update);
    }

    // The rows are under locks, which it takes for a look alone.
    fn read_ahead(&self, _children: &[Child]) -> u64 {
        0
    }

    fn post(&mut self, note: Note) {
        self.seats.desk.post(&mut self.seats.desk_seat, note);
    }
}
