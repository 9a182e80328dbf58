// A worker with its port.
ghost use Rattle.std.specs.Prelude.{◌≡◌, ◌<◌, ℕ, length, slice_index_or, false};
ghost use Rattle.worker_core.specs.Port.{Suits};
ghost use Rattle.table_port.specs.Port.{book_of};
ghost use Rattle.search_crew.specs.Inside.{HasWorked, LaneView, port_of};

use search_gate::{Gate, Stop};
use shared_table::{Job, Rows};
use std::alloc::Global;
use std::marker::Model;
use std::thread::{Threads, for_each_mut};
use table_port::TablePort;
use visit_log::visit_laws;
use word_desk::DeskSeat;
use worker_core::{Worker, work};
use worker_counts::CountSeat;

/// A worker with its port. It keeps that the port suits the worker and that no request waits for
/// its answer, so that the worker may go on.
#[derive(Drop)]
pub(crate) struct Lane<'a, J: Job, X: Rows<J> + Drop, G: Gate, T: Stop + Drop> {
    worker: Worker,
    port: TablePort<'a, J, X, G, T>,
}

impl<'a, J: Job, X: Rows<J> + Drop, G: Gate, T: Stop + Drop> Model for Lane<'a, J, X, G, T> {
    ghost use Rattle.std.specs.Prelude.{◌≡◌, false};
    ghost use Rattle.std.specs.Coded.{codes};
    ghost use Rattle.worker_core.specs.contracts.worker.Worker as worker_facts;
    ghost use Rattle.word_desk.specs.contracts.seat.DeskSeat as desk_facts;
    ghost use Rattle.worker_core.specs.Port.{Suits};
    ghost use Rattle.table_port.specs.Port.{book_of};
    ghost use Rattle.search_crew.specs.Inside.{LaneView, port_of};

    ghost Value = { LaneView };

    ghost coded = { Prim.hlevel (codes, worker_facts.the_row.coded, desk_facts.the_row.coded) };

    ghost view = { λ l. record { worker = l.worker; cut = l.port.cut; seat = l.port.seats.row; desk = l.port.seats.desk_seat; signal = T.signal l.port.watch.stop } };

    ghost invariant = { λ l. (l.worker.waiting ≡ false)
        × Suits l.worker (book_of (port_of l.port.cut l.port.seats.row l.port.seats.desk_seat)) };
}

impl<'a, J: Job, X: Rows<J> + Drop, G: Gate, T: Stop + Drop> Lane<'a, J, X, G, T> {
    /// The worker with this port, which suits it. Takes no memory.
    pub(crate) fn new(worker: Worker, port: TablePort<'a, J, X, G, T>) -> Lane<'a, J, X, G, T>
        requires idle { worker.waiting ≡ false }
        requires suits { Suits worker
            (book_of (port_of port.cut port.seats.row port.seats.desk_seat)) }
        ensures { result ≡ record {
          worker = worker;
          cut = port.entry.cut;
          seat = port.entry.seats.row;
          desk =
              port.entry.seats.desk_seat;
          signal = T.signal port.entry.watch.stop;
        } }
    {
        Lane { worker, port }
    }

    /// The worker, its seats, each with the one part that it had, and its stop. Takes no memory.
    pub(crate) fn into_parts(self) -> (Worker, CountSeat, DeskSeat, T)
        ensures parts { (result.1.view.parts ≡ 1) × (result.2.parts ≡ 1) }
        ensures all { (result.0 ≡ self.entry.worker) × (result.1 ≡ self.entry.seat.seat)
            × (result.2 ≡ self.entry.desk) × (T.signal result.3 ≡ self.entry.signal) }
    {
        let Lane { worker, port } = self;
        let (_, seat, desk_seat, stop) = port.into_parts();
        (worker, seat, desk_seat, stop)
    }
}

// Has a worker work over its port till it has ended.
fn work_over<J: Job, X: Rows<J> + Drop, G: Gate, T: Stop + Drop>(
    alloc: Global,
    worker: &mut Worker,
    port: &mut TablePort<'_, J, X, G, T>,
)
    requires idle { worker.old.waiting ≡ false }
    requires suits { Suits worker.old
        (book_of (port_of port.old.cut port.old.seats.row port.old.seats.desk_seat)) }
    ensures idle { worker.new.waiting ≡ false }
    ensures suits { Suits worker.new
        (book_of (port_of port.new.cut port.new.seats.row port.new.seats.desk_seat)) }
    ensures worked { HasWorked
        (record {
          worker = worker.old;
          cut = port.old.cut;
          seat = port.old.seats.row;
          desk =
              port.old.seats.desk_seat;
          signal = T.signal port.old.watch.stop;
        })
        (record {
          worker = worker.new;
          cut = port.new.cut;
          seat = port.new.seats.row;
          desk =
              port.new.seats.desk_seat;
          signal = T.signal port.new.watch.stop;
        }) }
{
    work(alloc, worker, port);
    // How it ended has its cause in its log.
    visit_laws();
}

fn work_lane<J: Job, X: Rows<J> + Drop, G: Gate, T: Stop + Drop>(
    alloc: Global,
    lane: &mut Lane<'_, J, X, G, T>,
)
    ensures { HasWorked lane.old lane.new }
{
    work_over(alloc, &mut lane.worker, &mut lane.port);
}

/// Has all workers work side by side, each in a thread of its own where one can be made, till each
/// has ended.
pub(crate) fn work_all<
    J: Job + Send + Sync,
    X: Rows<J> + Send + Drop,
    G: Gate,
    T: Stop + Drop,
    R: Threads + Sync,
>(rt: &R, alloc: Global, lanes: &mut [Lane<'_, J, X, G, T>])
    requires { 0 < length lanes.old }
    ensures count { length lanes.new ≡ length lanes.old }
    ensures worked { (place : ℕ) (none : LaneView) → place < length lanes.old
        → HasWorked (slice_index_or lanes.old place none) (slice_index_or lanes.new place none) }
{
    let threads = lanes.len();
    for_each_mut(
        rt,
        lanes,
        threads,
        &|_: usize, lane: &mut Lane<'_, J, X, G, T>|
            ensures { HasWorked lane.old lane.new }
        { work_lane(alloc, lane) },
    );
}
