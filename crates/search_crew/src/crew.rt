// A search by several workers.
ghost use Rattle.std.specs.Prelude.{◌≡◌, ◌+◌, ◌-◌, ◌<◌, ◌≤◌, ◌++◌, ℕ, suc, List, [], All, IfOk, IfSome, IfNone, length, map, reverse, sum_by};
ghost use Rattle.std.specs.Vec.{vec_capacity};
ghost use Rattle.board_core.specs.Board.{Board};
ghost use Rattle.search_gate.specs.Polls.{ArePolled};
ghost use Rattle.search_gate.specs.Stop.{Signal};
ghost use Rattle.search_limits.specs.Settings.{settings_in};
ghost use Rattle.search_pool.specs.End.{IsSolution};
ghost use Rattle.table_shard.specs.Row.{lent_to};
ghost use Rattle.unit_desk.specs.Known.{IsKnown};
ghost use Rattle.visit_log.specs.declared.words.WorkEnd.TheVariants.{Posted, Spent, NoRoom};
ghost use Rattle.word_desk.specs.WordDesk.{unused};
ghost use Rattle.worker_counts.specs.declared.view.TheConstants.{MOST_SEATS};
ghost use Rattle.worker_counts.specs.Counts.{with_part_less};
ghost use Rattle.search_crew.specs.End.{GaveUpFor, IsCrewEnd, IsFirstEnded, IsSearchEnd, HaveSearched, NoneEnded, OneEnded};
ghost use Rattle.search_crew.specs.Inside.{AreFresh, ClosesCrew, CrewTells, IsAtFirst, IsFresh, shares};

use crate::closing::{Words, gather};
use crate::lane::{Lane, work_all};
use bit_boards::Side;
use notes::{HEIGHT_LIMIT, Note};
use search_gate::{Gate, Stop};
use search_limits::{Cause, Settings};
use search_pool::{SearchEnd, search_alone_until};
use shared_table::{Job, LockedRows, RowSeat, SharedTable};
use shogi_rules::Problem;
use std::alloc::{AllocError, Global};
use std::sync::Wait;
use std::thread::Threads;
use table_port::{Cut, Seats, TablePort, Watch};
use visit_log::WorkEnd;
use word_desk::{DeskEnd, DeskSeat, WordDesk};
use worker_core::{Crew, Worker};
use worker_counts::CountSeat;

// What all workers of a search stand on: its problem, whose attacker is the job's, how many they
// are, the table and whether it lends, the desk, the gate, and the handle by which they wait at a
// lock.
#[derive(Drop)]
struct Ground<'a, J: Job, K: Job, R: Wait, G: Gate> {
    problem: &'a Problem,
    count: u32,
    table: &'a SharedTable<J, K>,
    lends: bool,
    desk: &'a WordDesk,
    gate: &'a G,
    wait: &'a R,
    ghost attacks: { problem.now.position.side ≡ J.ATTACKER },
    ghost posed: { desk.now.position ≡ problem.now.position },
    ghost few: { (0 < count) × (count < MOST_SEATS) },
}

// A lane of a search by threads.
type LockedLane<'a, J, R, G, T> = Lane<'a, J, LockedRows<'a, J, R>, G, T>;

// To whom a table lends: to the problem's attacker, where it lends at all.
fn to_whom(lends: bool, problem: &Problem) -> Option<Side>
    ensures to { result ≡ lent_to lends problem.now.position.side }
    ensures his { IfSome result (λ side. side ≡ problem.now.position.side) }
{
    if lends {
        Some(problem.attacker())
    } else {
        None
    }
}

// The worker of this number before it asks anything, with this stop, and seats that are made of
// these.
fn make_lane<'a, J: Job, K: Job, R: Wait, G: Gate, T: Stop + Drop>(
    alloc: Global,
    ground: &Ground<'a, J, K, R, G>,
    number: u32,
    seat: &mut CountSeat,
    desk_seat: &mut DeskSeat,
    stop: T,
) -> LockedLane<'a, J, R, G, T>
    requires seat { (seat.old.counts ≡ ground.now.table.now.words) × (1 < seat.old.view.parts) }
    requires desk_seat { (desk_seat.old.desk ≡ ground.now.desk.now) × (1 < desk_seat.old.parts)
        × (desk_seat.old.draw_ends ≡ 0) × (desk_seat.old.claim_ends ≡ 0) }
    ensures fresh { IsFresh
        (shares ground.now.problem.now.position ground.now.table.now.words ground.now.desk.now)
        number result }
    ensures signal { result.signal ≡ T.signal stop }
    ensures seat { seat.new ≡ record seat.old { view = with_part_less seat.old.view } }
    ensures desk_seat { desk_seat.new ≡ record desk_seat.old { parts = desk_seat.old.parts - 1 } }
{
    ground.table.laws();
    let cut = Cut {
        shards: ground.table.shards(),
        own: ground.table.own(),
        to: to_whom(ground.lends, ground.problem),
    };
    let words = ground.table.words();
    let seats = Seats {
        row: RowSeat::new(words, words.make_seat(seat)),
        desk: ground.desk,
        desk_seat: ground.desk.make_seat(desk_seat),
    };
    let watch = Watch {
        number,
        gate: ground.gate,
        stop,
    };
    let rows = ground.table.rows(ground.wait);
    let worker = Worker::make(alloc, ground.problem, number);
    Lane::new(worker, TablePort::new(rows, cut, seats, watch))
}

// Makes the workers, from 1 on, each with the stop that is last then. There is room for all.
fn fill_lanes<'a, J: Job, K: Job, R: Wait, G: Gate, T: Stop + Drop>(
    alloc: Global,
    ground: &Ground<'a, J, K, R, G>,
    seat: &mut CountSeat,
    desk_seat: &mut DeskSeat,
    stops: &mut Vec<T>,
    lanes: &mut Vec<LockedLane<'a, J, R, G, T>>,
)
    requires seat { (seat.old.counts ≡ ground.now.table.now.words) × (IsAtFirst seat.old.view) }
    requires desk_seat { desk_seat.old ≡ unused ground.now.desk.now MOST_SEATS }
    requires stops { ground.now.count ≤ length stops.old.items }
    requires lanes { (lanes.old.items ≡ []) × (ground.now.count ≤ vec_capacity lanes.old) }
    ensures fresh { AreFresh
        (shares ground.now.problem.now.position ground.now.table.now.words ground.now.desk.now) 1
        lanes.new.items }
    ensures count { length lanes.new.items ≡ ground.now.count }
    ensures signals { map (λ lane. lane.signal) lanes.new.items ++ reverse
        (map T.signal stops.new.items) ≡ reverse (map T.signal stops.old.items) }
    ensures room { (vec_capacity stops.new ≡ vec_capacity stops.old)
        × (length stops.new.items + ground.now.count ≡ length stops.old.items) }
    ensures seat { (seat.new.counts ≡ seat.old.counts) × (seat.new.view.added ≡ [])
        × (seat.new.view.parts + ground.now.count ≡ MOST_SEATS) }
    ensures desk_seat { (desk_seat.new ≡ unused ground.now.desk.now desk_seat.new.parts)
        × (desk_seat.new.parts + ground.now.count ≡ MOST_SEATS) }
{
    for place in 0..ground.count {
        let Some(stop) = stops.pop() else {
            unreachable!();
        };
        lanes.push_reserved(make_lane(alloc, ground, place + 1, seat, desk_seat, stop));
    }
}

// Makes the workers, has them work side by side, and takes their seats and stops back. Errors: want
// of memory alone; no stop was polled then.
fn work_crew<
    'a,
    J: Job + Send + Sync,
    K: Job + Send + Sync,
    R: Threads + Wait + Sync,
    G: Gate,
    T: Stop + Drop,
>(
    alloc: Global,
    ground: &Ground<'a, J, K, R, G>,
    seat: &mut CountSeat,
    desk_seat: &mut DeskSeat,
    stops: &mut Vec<T>,
) -> Result<Vec<Worker>, AllocError>
    requires seat { (seat.old.counts ≡ ground.now.table.now.words) × (IsAtFirst seat.old.view) }
    requires desk_seat { desk_seat.old ≡ unused ground.now.desk.now MOST_SEATS }
    requires stops { ground.now.count ≤ length stops.old.items }
    ensures tells { IfOk result
        (λ crew. CrewTells (shares ground.now.problem.now.position ground.now.table.now.words
        ground.now.desk.now)
        (map T.signal stops.old.items) (map T.signal stops.new.items) crew.items desk_seat.new) }
    ensures count { IfOk result (λ crew. length crew.items ≡ ground.now.count) }
    ensures seat { IfOk result (λ crew. (seat.new.counts ≡ seat.old.counts)
        × (seat.new.view.added ≡ []) × (seat.new.view.parts ≡ MOST_SEATS)) }
    ensures desk_parts { IfOk result (λ crew. desk_seat.new.parts ≡ MOST_SEATS) }
    ensures polled { ArePolled ground.now.count (map T.signal stops.old.items)
        (map T.signal stops.new.items) }
{
    let mut crew = Vec::with_capacity(alloc, ground.count as usize)?;
    let mut lanes = Vec::with_capacity(alloc, ground.count as usize)?;
    stops.reverse();
    fill_lanes(alloc, ground, seat, desk_seat, stops, &mut lanes);
    work_all(ground.wait, alloc, &mut lanes);
    let words = Words {
        counts: ground.table.words(),
        desk: ground.desk,
    };
    gather(words, lanes, seat, desk_seat, &mut crew, stops);
    stops.reverse();
    crew.reverse();
    Ok(crew)
}

// The place of the first worker that ended so.
fn first_ended(crew: &[Worker], end: WorkEnd) -> Option<usize>
    ensures some { IfSome result (λ place. IsFirstEnded end crew.now (suc place)) }
    ensures none { IfNone result (NoneEnded end crew.now) }
{
    for place in 0..crew.len() {
        if crew[place].end() == Some(end) {
            return Some(place);
        }
    }
    None
}

// Why a crew gave up, none of which ended with a posted note; none where that was for want of
// memory.
fn cause_of(settings: &Settings, crew: &[Worker]) -> Option<Cause>
    requires spent { OneEnded Spent crew.now → sum_by (λ worker. worker.state.visits) crew.now
        ≡ settings.now.expansions }
    requires full { OneEnded NoRoom crew.now → sum_by (λ worker. worker.state.claims) crew.now
        ≡ settings.now.room }
    requires few { length crew.now < MOST_SEATS }
    ensures { IfSome result (GaveUpFor (settings_in settings.now) crew.now) }
{
    if first_ended(crew, WorkEnd::Spent).is_some() {
        return Some(Cause::Expansions(settings.expansions));
    }
    if first_ended(crew, WorkEnd::NoRoom).is_some() {
        return Some(Cause::Room(settings.room));
    }
    if first_ended(crew, WorkEnd::TooHigh).is_some() {
        return Some(Cause::Height(HEIGHT_LIMIT));
    }
    let place = first_ended(crew, WorkEnd::Stopped)?;
    Some(Cause::Stopped(place as u32 + 1))
}

// What a crew's search comes to, once its desk is closed: the note that was posted first; else the
// cause why it gave up, and the crew.
fn outcome(settings: &Settings, crew: Vec<Worker>, end: DeskEnd) -> Result<SearchEnd, AllocError>
    requires count { length crew.items ≡ settings.now.workers }
    requires closes { (problem : Board)
        × ClosesCrew (settings_in settings.now) problem crew.items end.note }
    ensures { (problem : Board) (before after : List Signal)
        → HaveSearched problem 1 before after crew.items
        → ClosesCrew (settings_in settings.now) problem crew.items end.note
        → IfOk result (IsCrewEnd problem (settings_in settings.now) before after) }
{
    if let Some(note) = end.note {
        note.laws();
        return Ok(SearchEnd::Solved(note));
    }
    let Some(cause) = cause_of(settings, &crew) else {
        return Err(AllocError);
    };
    Ok(SearchEnd::Unknown(cause, Crew::new(crew)))
}

// A table of several workers between searches, and the first seat at its words, which has all parts
// of it and has added nothing.
#[derive(Drop)]
pub(crate) struct Kept<J: Job, K: Job> {
    table: SharedTable<J, K>,
    seat: CountSeat,
    ghost at: { seat.counts ≡ table.words },
    ghost at_first: { IsAtFirst seat.view },
}

impl<J: Job + Send + Sync, K: Job + Send + Sync> Kept<J, K> {
    // One with the shards and the rows of the settings, which knows nothing. Errors: want of memory
    // alone.
    pub(crate) fn make(alloc: Global, settings: &Settings) -> Result<Kept<J, K>, AllocError> {
        let (table, seat) = SharedTable::make(alloc, settings)?;
        Ok(Kept { table, seat })
    }

    // Whether it has the shards and the rows of the settings.
    pub(crate) fn suits(&self, settings: &Settings) -> bool {
        self.table.laws();
        let (shards, own) = (self.table.shards() as u64, self.table.own() as u64);
        shards == settings.shards && shards * own == settings.rows
    }

    // The same for the other attacker, emptied.
    pub(crate) fn turned(self) -> Kept<K, J> {
        Kept {
            table: self.table.turned(),
            seat: self.seat,
        }
    }

    // The same, emptied.
    pub(crate) fn emptied(self) -> Kept<J, K> {
        Kept {
            table: self.table.emptied(),
            seat: self.seat,
        }
    }

    // Takes in notes that are known before anyone searches, for the attacker. Errors: want of
    // memory alone.
    pub(crate) fn take_all<R: Wait>(&self, wait: &R, notes: &[Note]) -> Result<(), AllocError>
        requires { All (IsKnown J.ATTACKER) notes.now }
    {
        self.table.take_all(wait, notes)
    }

    // A search by several workers, of the job's attacker, over this table, which comes back. Every
    // worker has left all that it had entered.
    pub(crate) fn search<R: Threads + Wait + AllocGlobal + Sync, G: Gate, T: Stop + Drop>(
        self,
        rt: &R,
        problem: &Problem,
        settings: &Settings,
        gate: &G,
        stops: &mut Vec<T>,
    ) -> Result<(SearchEnd, Kept<J, K>), AllocError>
        requires attacks { problem.now.position.side ≡ J.ATTACKER }
        requires stops { settings.now.workers ≤ length stops.old.items }
        ensures end { IfOk result (λ done. IsCrewEnd problem.now.position
            (settings_in settings.now) (map T.signal stops.old.items)
            (map T.signal stops.new.items) done.0) }
        ensures polled { ArePolled settings.now.workers
            (map T.signal stops.old.items) (map T.signal stops.new.items) }
    {
        let alloc = rt.alloc();
        let Kept { table, mut seat } = self;
        let (desk, mut desk_seat) = WordDesk::make(alloc, problem, settings)?;
        let ground = Ground {
            problem,
            count: settings.workers,
            table: &table,
            lends: settings.lends,
            desk: &desk,
            gate,
            wait: rt,
        };
        let crew = work_crew(alloc, &ground, &mut seat, &mut desk_seat, stops)?;
        // No more was drawn and claimed than may be.
        desk_seat.laws();
        let end = outcome(settings, crew, desk.close(desk_seat))?;
        Ok((end, Kept { table, seat }))
    }
}

/// Searches a problem with one worker, as the settings say, which polls the first stop:
/// [`search`](crate::search) without threads, which takes no lock and waits for nobody. Takes the
/// table's memory at once: about 1 KB a row. Errors: want of memory alone.
pub fn search_by_one<G: Gate, T: Stop>(
    alloc: Global,
    problem: &Problem,
    settings: &Settings,
    gate: &G,
    stops: &mut [T],
) -> Result<SearchEnd, AllocError>
    requires alone { settings.now.workers ≡ 1 }
    requires stops { 0 < length stops.old }
    ensures end { IfOk result (IsSearchEnd problem.now.position (settings_in settings.now)
        (map T.signal stops.old) (map T.signal stops.new)) }
    ensures solution { IfOk result (IsSolution problem.now.position) }
    ensures polled { ArePolled 1 (map T.signal stops.old) (map T.signal stops.new) }
{
    search_alone_until(alloc, problem, settings, gate, &mut stops[0])
}
