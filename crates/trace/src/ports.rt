// Workers that have a port each, of one shared table and one shared desk, and take turns.
ghost use Rattle.std.specs.Prelude.{◌≡◌, ◌+◌, ◌*◌, ◌^◌, ◌<◌, ◌≤◌, false, None, IfOk, IfSome, length};
ghost use Rattle.table_port.specs.Port.{book_of};
ghost use Rattle.worker_core.specs.Port.{Suits};

use crate::asked::Asked;
use crate::flag_stop::FlagStop;
use crate::lines::Lines;
use crate::recorder::Recorder;
use board_core::Side;
use lone_port::Event;
use search_gate::OpenGate;
use search_limits::Settings;
use shared_table::{BlackJob, Job, JobShard, PlainRows, RowSeat, Rows, WhiteJob};
use shogi_rules::Problem;
use std::alloc::{AllocError, Global};
use std::marker::Model;
use std::mem;
use table_port::{Cut, Seats, TablePort, Watch};
use visit_log::{WorkEnd, count_laws};
use word_desk::{DeskSeat, WordDesk};
use worker_core::{Worker, turn};
use worker_counts::{CountSeat, WorkerCounts};

// A port whose requests and answers are written down.
type Written<'a, J> = Recorder<TablePort<'a, J, PlainRows<J>, OpenGate, FlagStop>>;

// What goes from one worker to the next: the rows, and the lines so far.
#[derive(Drop)]
struct Shared<J: Job> {
    rows: PlainRows<J>,
    lines: Lines,
}

// A worker with its port, and the stop that its polls ask. While it isn't at work its port has rows
// and a stop of no account.
#[derive(Drop)]
struct Lane<'a, J: Job>
where
    PlainRows<J>: Rows<J>,
{
    worker: Worker,
    written: Written<'a, J>,
    stop: FlagStop,
}

impl<'a, J: Job> Model for Lane<'a, J>
where
    PlainRows<J>: Rows<J>,
{
    ghost use Rattle.std.specs.Prelude.{◌≡◌, None, false};
    ghost use Rattle.std.specs.Coded.{codes};
    ghost use Rattle.worker_core.specs.contracts.worker.Worker as worker_facts;
    ghost use Rattle.word_desk.specs.contracts.seat.DeskSeat as desk_facts;
    ghost use Rattle.worker_core.specs.Port.{Suits};
    ghost use Rattle.table_port.specs.Port.{TablePortView, book_of};
    ghost use Rattle.trace.specs.Ported.{LaneView, port_of};

    ghost Value = { LaneView };

    ghost coded = { Prim.hlevel (codes, worker_facts.the_row.coded, desk_facts.the_row.coded) };

    ghost view = { λ l. record { worker = l.worker; cut = l.written.port.cut; seat = l.written.port.seats.row; desk = l.written.port.seats.desk_seat } };

    ghost invariant = { λ l. (l.worker.waiting ≡ false)
        × Suits l.worker (book_of (port_of l.written.port.cut l.written.port.seats.row l.written.port.seats.desk_seat)) };
}

impl<'a, J: Job> Lane<'a, J>
where
    PlainRows<J>: Rows<J>,
{
    // Has one request answered over the shared rows, and writes it down.
    fn step(&mut self, alloc: Global, shared: &mut Shared<J>) {
        if !self.exchange(shared) {
            return;
        }
        turn(alloc, &mut self.worker, &mut self.written);
        self.exchange(shared);
    }

    // Exchanges rows, stop and lines, where the rows are as many.
    fn exchange(&mut self, shared: &mut Shared<J>) -> bool {
        let cut = self.written.port.cut();
        if shared.rows.len() != cut.shards {
            return false;
        }
        self.written.port.exchange(&mut shared.rows, &mut self.stop);
        mem::swap(&mut self.written.lines, &mut shared.lines);
        true
    }

    fn starve(&mut self) {
        count_laws();
        self.worker.starve();
    }
}

// What all workers stand on: the words that count them, the desk, the gate, and how the table is
// cut.
#[derive(Clone, Copy, Drop)]
struct Ground<'a> {
    words: &'a WorkerCounts,
    desk: &'a WordDesk,
    gate: &'a OpenGate,
    cut: Cut,
    ghost some: { (0 < cut.shards) × (0 < cut.own) × (cut.shards * cut.own ≤ 2 ^ 40) },
    ghost eight: { words.now.words ≡ 8 * (cut.shards * cut.own) },
}

// So many shards of so many rows each.
fn plain_rows<J: Job>(alloc: Global, count: usize, own: usize) -> Result<PlainRows<J>, AllocError>
    requires { 0 < own }
    ensures { IfOk result (λ rows. length rows.shards.items ≡ count) }
{
    let mut shards = Vec::with_capacity(alloc, count)?;
    while shards.len() < count {
        shards.push(JobShard::make(alloc, own)?)?;
    }
    Ok(PlainRows::new(shards))
}

// The worker of this number, with seats that are made of these, before it asks anything.
fn make_lane<'a, J: Job>(
    alloc: Global,
    problem: &Problem,
    ground: Ground<'a>,
    number: u32,
    seat: &mut CountSeat,
    desk_seat: &mut DeskSeat,
) -> Result<Lane<'a, J>, AllocError>
where
    PlainRows<J>: Rows<J>,
    requires attacks { problem.now.position.side ≡ J.ATTACKER }
    requires desk { ground.desk.now.position ≡ problem.now.position }
    requires seat { (seat.old.counts ≡ ground.words.now) × (1 < seat.old.view.parts) }
    requires desk_seat { (desk_seat.old.desk ≡ ground.desk.now) × (1 < desk_seat.old.parts)
        × (desk_seat.old.draw_ends ≡ 0) × (desk_seat.old.claim_ends ≡ 0) }
    ensures seat { (seat.new.counts ≡ seat.old.counts)
        × (seat.new.view.parts + 1 ≡ seat.old.view.parts) }
    ensures desk_seat { (desk_seat.new.desk ≡ desk_seat.old.desk)
        × (desk_seat.new.parts + 1 ≡ desk_seat.old.parts) × (desk_seat.new.draw_ends ≡ 0)
        × (desk_seat.new.claim_ends ≡ 0) }
{
    let seats = Seats {
        row: RowSeat::new(ground.words, ground.words.make_seat(seat)),
        desk: ground.desk,
        desk_seat: ground.desk.make_seat(desk_seat),
    };
    let watch = Watch {
        number,
        gate: ground.gate,
        stop: FlagStop::new(),
    };
    let rows = plain_rows(alloc, ground.cut.shards, 1)?;
    if rows.len() != ground.cut.shards {
        return Err(AllocError);
    }
    let cut = Cut {
        shards: ground.cut.shards,
        own: ground.cut.own,
        to: Some(problem.attacker()),
    };
    let written = Recorder {
        port: TablePort::new(rows, cut, seats, watch),
        lines: Lines::new(alloc, problem.attacker(), true),
        below: 0,
    };
    Ok(Lane {
        worker: Worker::make(alloc, problem, number),
        written,
        stop: FlagStop::new(),
    })
}

// Workers that take turns, and what goes from one to the next.
#[derive(Drop)]
struct Turns<'a, J: Job>
where
    PlainRows<J>: Rows<J>,
{
    lanes: Vec<Lane<'a, J>>,
    shared: Shared<J>,
}

impl<'a, J: Job> Turns<'a, J>
where
    PlainRows<J>: Rows<J>,
{
    // The place of the worker of this number, if it is there and hasn't ended.
    fn at_work(&self, number: u32) -> Option<usize>
        ensures { IfSome result (λ place. place < length self.now.lanes.items) }
    {
        let number = number as usize;
        if number == 0 {
            return None;
        }
        if number > self.lanes.len() {
            return None;
        }
        match self.lanes[number - 1].worker.end() {
            None => Some(number - 1),
            Some(_) => None,
        }
    }

    // Has an event happen, and tells of it.
    fn happen(&mut self, alloc: Global, event: Event) {
        match event {
            Event::Step(number) => self.step(alloc, number),
            Event::Raise(number) => self.raise(number),
            Event::Starve(number) => self.starve(number),
        }
    }

    fn step(&mut self, alloc: Global, number: u32) {
        let Some(place) = self.at_work(number) else {
            return;
        };
        self.shared.lines.of_worker(number);
        let lane = &mut self.lanes[place];
        lane.step(alloc, &mut self.shared);
        tell_end(&self.lanes[place].worker, &mut self.shared.lines);
    }

    fn raise(&mut self, number: u32) {
        let Some(place) = self.at_work(number) else {
            return;
        };
        let lane = &mut self.lanes[place];
        lane.stop.is_raised = true;
    }

    fn starve(&mut self, number: u32) {
        let Some(place) = self.at_work(number) else {
            return;
        };
        self.shared.lines.of_worker(number);
        let lane = &mut self.lanes[place];
        lane.starve();
        tell_end(&self.lanes[place].worker, &mut self.shared.lines);
    }

    // The lines, with what came of it all behind them; none where one couldn't be written.
    fn into_text(self) -> Option<Vec<u8>> {
        let Turns { lanes, shared } = self;
        let Shared { rows: _, mut lines } = shared;
        let mut drawn: u64 = 0;
        let mut claimed: u64 = 0;
        let mut below: u64 = 0;
        let mut ended: u32 = 0;
        let mut is_posted = false;
        for lane in &lanes {
            drawn = drawn.wrapping_add(lane.worker.visits());
            claimed = claimed.wrapping_add(lane.worker.claims());
            below = below.wrapping_add(lane.written.below);
            if let Some(end) = lane.worker.end() {
                ended = ended.wrapping_add(1);
                is_posted = is_posted || end == WorkEnd::Posted;
            }
        }
        let claimed = u32::try_from(claimed).unwrap_or(u32::MAX);
        lines.total(drawn, claimed, is_posted, ended, below);
        lines.into_text()
    }
}

// Tells how the worker ended, if it has.
fn tell_end(worker: &Worker, lines: &mut Lines) {
    if let Some(end) = worker.end() {
        lines.end(end);
    }
}

// The workers, from 1 on.
fn make_lanes<'a, J: Job>(
    alloc: Global,
    problem: &Problem,
    ground: Ground<'a>,
    count: u32,
    seat: &mut CountSeat,
    desk_seat: &mut DeskSeat,
) -> Result<Vec<Lane<'a, J>>, AllocError>
where
    PlainRows<J>: Rows<J>,
    requires attacks { problem.now.position.side ≡ J.ATTACKER }
    requires desk { ground.desk.now.position ≡ problem.now.position }
    requires seat { (seat.old.counts ≡ ground.words.now) × (count < seat.old.view.parts) }
    requires desk_seat { (desk_seat.old.desk ≡ ground.desk.now) × (count < desk_seat.old.parts)
        × (desk_seat.old.draw_ends ≡ 0) × (desk_seat.old.claim_ends ≡ 0) }
{
    let mut lanes = Vec::new(alloc);
    for place in 0..count {
        lanes.push(make_lane(alloc, problem, ground, place + 1, seat, desk_seat)?)?;
    }
    Ok(lanes)
}

// The lines of a world by ports, in a search of the job's attacker.
fn traced<J: Job>(alloc: Global, asked: &Asked) -> Result<Vec<u8>, AllocError>
where
    PlainRows<J>: Rows<J>,
    requires { asked.now.problem.position.side ≡ J.ATTACKER }
{
    let settings = &asked.settings;
    let cut = Cut {
        shards: settings.shards as usize,
        own: (settings.rows / settings.shards) as usize,
        to: Some(asked.problem.attacker()),
    };
    let (words, mut seat) = WorkerCounts::make(alloc, 8 * (cut.shards * cut.own))?;
    let (desk, mut desk_seat) = WordDesk::make(alloc, &asked.problem, settings)?;
    let ground = Ground {
        words: &words,
        desk: &desk,
        gate: &OpenGate,
        cut,
    };
    let shared = Shared {
        rows: plain_rows(alloc, cut.shards, cut.own)?,
        lines: Lines::new(alloc, asked.problem.attacker(), true),
    };
    let workers = settings.workers;
    let lanes = make_lanes::<J>(
        alloc,
        &asked.problem,
        ground,
        workers,
        &mut seat,
        &mut desk_seat,
    )?;
    let mut turns = Turns { lanes, shared };
    for event in &asked.events {
        turns.happen(alloc, *event);
    }
    turns.into_text().ok_or(AllocError)
}

/// The lines of the world that is asked for, where each worker has a port of its own. Errors: want
/// of memory alone.
pub fn trace_ports(alloc: Global, asked: &Asked) -> Result<Vec<u8>, AllocError> {
    match asked.problem.attacker() {
        Side::Black => traced::<BlackJob>(alloc, asked),
        Side::White => traced::<WhiteJob>(alloc, asked),
    }
}
